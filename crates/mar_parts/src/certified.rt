//! Commitments that are known as certified.
ghost use Rattle.std.specs.Prelude.{◌≡◌, ◌==◌, ◌&&◌, ◌||◌, ◌≤◌, ℕ, [], All, Contains, IsTrue, List, OnErr, OnOk, bytes_eq, false, max, nat_le, true};
ghost use Rattle.std.specs.BTreeMap.{get};
ghost use Rattle.std.specs.Fn.{FnReturnsAt};
ghost use Rattle.std.specs.Ordering.{nat_cmp};
ghost use Rattle.mar_parts.specs.Certified.{by_height, is_known, is_listed, known_at, listed};

use mar_types::{Height, Named};
use std::alloc::{AllocError, Global};
use std::collections::BTreeMap;
use std::marker::Model;

/// The commitments of blocks that are known as certified, and of their parents, by height. Heights below a least one,
/// which never falls, aren't kept. A height has few commitments, so a look through them finds one. A contract sees a
/// record of the commitments at each height and of that least one.
#[derive(Drop)]
pub struct Certified<C: Named> {
    alloc: Global,
    commitments: BTreeMap<u64, Vec<C>>,
    min: Height,
}

impl<C: Named> Model for Certified<C> {
    ghost use Rattle.std.specs.Prelude.{ℕ, ◌≡◌, ◌<◌, None};
    ghost use Rattle.std.specs.Ordering.{nat_cmp};
    ghost use Rattle.std.specs.BTreeMap.{get};
    ghost use Rattle.mar_parts.specs.Certified.{Certified as CertifiedCommitments, by_height};

    ghost Value = { CertifiedCommitments C };

    ghost view = { λ s. record { commitments = by_height s.commitments.entries; min = s.min } };

    ghost invariant = { λ s. (h : ℕ) → h < s.min → get nat_cmp s.commitments h ≡ None };
}

impl<C: Named> Certified<C> {
    /// Nothing is known, and heights from 1 on are kept.
    pub fn new(alloc: Global) -> Self
        ensures { result ≡ record { commitments = []; min = 1 } }
    {
        Certified {
            alloc,
            commitments: BTreeMap::new(alloc),
            min: Height::new(1),
        }
    }

    /// Takes note of a commitment as certified at a height, where that is kept. One that is known there changes nothing.
    /// Where memory runs out nothing changes, and it runs out only for a commitment that isn't known there yet.
    pub fn insert(&mut self, height: Height, commitment: C) -> Result<(), AllocError>
        ensures known { OnOk result ((h : ℕ) (c : List ℕ) → is_known C.bytes self.new h c
            ≡ (is_known C.bytes self.old h c || (nat_le self.old.min height && h == height && bytes_eq (C.bytes commitment) c))) }
        ensures min { self.new.min ≡ self.old.min }
        ensures again { is_known C.bytes self.old height (C.bytes commitment) ≡ true → self.new ≡ self.old }
        ensures err { OnErr result (self.new ≡ self.old) }
        ensures kept { OnErr result (self.old.min ≤ height) }
        ensures absent { OnErr result (is_known C.bytes self.old height (C.bytes commitment) ≡ false) }
    {
        if height < self.min {
            return Ok(());
        }
        if self.contains(height, &commitment) {
            return Ok(());
        }
        add(self.alloc, &mut self.commitments, height.get(), commitment)
    }

    /// Whether a commitment is known as certified at a height.
    pub fn contains(&self, height: Height, commitment: &C) -> bool
        ensures { result ≡ is_known C.bytes self.now height (C.bytes commitment.now) }
    {
        match self.commitments.get(&height.get()) {
            Some(known) => is_in(known, commitment),
            None => false,
        }
    }

    /// Whether a commitment that is known as certified at a height passes a test.
    pub fn contains_matching<P: Fn(&C) -> bool>(&self, height: Height, predicate: P) -> bool
        requires { P.IsAlwaysCallable predicate }
        ensures found { result ≡ true → (c : C) × Contains (known_at self.now height) c × FnReturnsAt P.Fn predicate c true }
        ensures absent { result ≡ false → (c : C) → Contains (known_at self.now height) c → FnReturnsAt P.Fn predicate c false }
    {
        let Some(known) = self.commitments.get(&height.get()) else {
            return false;
        };
        has_matching(known, predicate)
    }

    /// Forgets what is known at heights below `min`, and takes note of nothing there from now on. What was forgotten
    /// before stays so: the least height never falls.
    pub fn retain(&mut self, min: Height)
        ensures known { (h : ℕ) (c : List ℕ) → is_known C.bytes self.new h c ≡ (nat_le min h && is_known C.bytes self.old h c) }
        ensures min { self.new.min ≡ max self.old.min min }
    {
        if min <= self.min {
            return;
        }
        self.min = min;
        let lowest = min.get();
        self.commitments.retain(|height, _| *height >= lowest);
    }
}

// Adds a commitment to those of a height.
fn add<C: Named>(
    alloc: Global,
    commitments: &mut BTreeMap<u64, Vec<C>>,
    height: u64,
    commitment: C,
) -> Result<(), AllocError>
    ensures ok { OnOk result ((h : ℕ) (c : List ℕ) → is_listed C.bytes (listed (get nat_cmp commitments.new h)) c
        ≡ (is_listed C.bytes (listed (get nat_cmp commitments.old h)) c || (h == height && bytes_eq (C.bytes commitment) c))) }
    ensures others { (h : ℕ) → (h == height) ≡ false → get nat_cmp commitments.new h ≡ get nat_cmp commitments.old h }
    ensures err { OnErr result (by_height commitments.new.entries ≡ by_height commitments.old.entries) }
{
    if let Some(known) = commitments.get_mut(&height) {
        known.push(commitment)?;
        return Ok(());
    }
    let mut known = Vec::new(alloc);
    known.push(commitment)?;
    commitments.insert(height, known)?;
    Ok(())
}

// Whether a list has a commitment.
fn is_in<C: Named>(known: &[C], commitment: &C) -> bool
    ensures { result ≡ is_listed C.bytes known.now (C.bytes commitment.now) }
{
    known.contains(commitment)
}

// Whether a commitment of a list passes a test.
fn has_matching<C: Named, P: Fn(&C) -> bool>(known: &[C], predicate: P) -> bool
    requires { P.IsAlwaysCallable predicate }
    ensures found { result ≡ true → (c : C) × Contains known.now c × FnReturnsAt P.Fn predicate c true }
    ensures absent { result ≡ false → All (λ c. FnReturnsAt P.Fn predicate c false) known.now }
{
    for commitment in known {
        if predicate(commitment) {
            return true;
        }
    }
    false
}
