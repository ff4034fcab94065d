//! A resolver that keeps what it is asked.
ghost use Rattle.std.specs.Prelude.{◌≡◌, ◌++◌, ◌∷◌, [], IfOk, OnErr, OnOk, Some, map, vec_len, ◌≤◌};
ghost use Rattle.mar_key.specs.Hears.{Hears};
ghost use Rattle.mar_key.specs.Keys.{retain};
ghost use Rattle.mar_key.specs.Views.{call_of, retain_of, targeted_of};
ghost use Rattle.mar_key.specs.Recorded.{ask_of};

use crate::annotations::Retain;
use crate::requests::Fetch;
use crate::resolvers::{Resolver, TargetedResolver};
use mar_types::Digest;
use std::alloc::{AllocError, Global};
use std::marker::Model;

/// What a resolver was asked.
#[derive(Drop)]
pub enum Ask<D> {
    /// A key, of any peers.
    Fetch(Fetch<D>),
    /// A key, of these peers.
    Targeted(Fetch<D>, Vec<u32>),
    /// To drop requests.
    Retain(Retain),
}

/// A resolver that asks nobody: it keeps what it was asked, in order. A contract sees the list.
#[derive(Drop)]
pub struct Recorder<D: Digest> {
    alloc: Global,
    asks: Vec<Ask<D>>,
}

impl<D: Digest> Model for Recorder<D> {
    ghost use Rattle.std.specs.Prelude.{List, map};
    ghost use Rattle.mar_key.specs.Keys.{Call};
    ghost use Rattle.mar_key.specs.Recorded.{ask_of};

    ghost Value = { List Call };

    ghost view = { λ r. map (ask_of D.bytes) r.asks.items };
}

impl<D: Digest> Recorder<D> {
    /// Nothing was asked.
    pub fn new(alloc: Global) -> Self
        ensures { result ≡ [] }
    {
        Recorder {
            alloc,
            asks: Vec::new(alloc),
        }
    }

    /// All that was asked, in order.
    pub fn asks(&self) -> &[Ask<D>]
        ensures { map (ask_of D.bytes) result.now ≡ self.now }
    {
        self.asks.as_slice()
    }
}

impl<D: Digest> Resolver<D> for Recorder<D> {
    ghost told = { λ r. Some r };

    fn fetch(&mut self, fetch: Fetch<D>) -> Result<(), AllocError>
        ensures ok { OnOk result (Hears (Some self.old) (call_of D.bytes fetch ∷ []) (Some self.new)) }
        ensures err { OnErr result (Hears (Some self.old) [] (Some self.new)) }
    {
        self.asks.push(Ask::Fetch(fetch))?;
        Ok(())
    }

    fn fetch_all(&mut self, fetches: &[Fetch<D>]) -> Result<(), AllocError>
        ensures ok { OnOk result (Hears (Some self.old) (map (call_of D.bytes) fetches.now) (Some self.new)) }
        ensures err { OnErr result (Hears (Some self.old) [] (Some self.new)) }
    {
        push_all(&mut self.asks, fetches)
    }

    fn retain(&mut self, keep: Retain) -> Result<(), AllocError>
        ensures ok { OnOk result (Hears (Some self.old) (retain (retain_of keep) ∷ []) (Some self.new)) }
        ensures err { OnErr result (Hears (Some self.old) [] (Some self.new)) }
    {
        self.asks.push(Ask::Retain(keep))?;
        Ok(())
    }
}

impl<D: Digest> TargetedResolver<D> for Recorder<D> {
    fn fetch_targeted(&mut self, fetch: Fetch<D>, targets: &[u32]) -> Result<(), AllocError>
        ensures ok { OnOk result (Hears (Some self.old) (targeted_of D.bytes fetch targets.now ∷ []) (Some self.new)) }
        ensures err { OnErr result (Hears (Some self.old) [] (Some self.new)) }
    {
        let targets = Vec::from_slice(self.alloc, targets)?;
        self.asks.push(Ask::Targeted(fetch, targets))?;
        Ok(())
    }

    fn fetch_all_targeted(
        &mut self,
        fetches: &[Fetch<D>],
        targets: &[u32],
    ) -> Result<(), AllocError>
        ensures ok { OnOk result (Hears (Some self.old) (map (λ f. targeted_of D.bytes f targets.now) fetches.now) (Some self.new)) }
        ensures err { OnErr result (Hears (Some self.old) [] (Some self.new)) }
    {
        let mut more = all_targeted(self.alloc, fetches, targets)?;
        self.asks.append(&mut more)?;
        Ok(())
    }
}

// The requests, each of these peers.
fn all_targeted<D: Digest>(
    alloc: Global,
    fetches: &[Fetch<D>],
    targets: &[u32],
) -> Result<Vec<Ask<D>>, AllocError>
    ensures { IfOk result (λ v. map (ask_of D.bytes) v.items ≡ map (λ f. targeted_of D.bytes f targets.now) fetches.now) }
{
    let mut asks = Vec::new(alloc);
    for fetch in fetches {
        let own = Vec::from_slice(alloc, targets)?;
        asks.push(Ask::Targeted(*fetch, own))?;
    }
    Ok(asks)
}

// Appends the requests, or none of them.
fn push_all<D: Digest>(asks: &mut Vec<Ask<D>>, fetches: &[Fetch<D>]) -> Result<(), AllocError>
    ensures ok { OnOk result (map (ask_of D.bytes) asks.new.items ≡ map (ask_of D.bytes) asks.old.items ++ map (call_of D.bytes) fetches.now) }
    ensures err { OnErr result (asks.new.items ≡ asks.old.items) }
    ensures longer { vec_len asks.old ≤ vec_len asks.new }
{
    asks.reserve(fetches.len())?;
    for fetch in fetches {
        asks.push_reserved(Ask::Fetch(*fetch));
    }
    Ok(())
}
