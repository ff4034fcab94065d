//! Who is asked to fetch from peers.
ghost use Rattle.std.specs.Prelude.{List, OnErr, OnOk, Option, [], map, ◌∷◌};
ghost use Rattle.mar_key.specs.Hears.{Hears};
ghost use Rattle.mar_key.specs.Keys.{Call, retain};
ghost use Rattle.mar_key.specs.Views.{call_of, retain_of, targeted_of};

use crate::annotations::Retain;
use crate::requests::Fetch;
use mar_types::Named;
use std::alloc::AllocError;

/// Fetches from peers what it is asked for, naming commitments by `D`.
pub trait Resolver<D: Named> {
    // The requests and retains that it was handed, in order, where it tells that.
    ghost told: { Self → Option (List Call) };

    /// Asks peers for a key.
    fn fetch(&mut self, fetch: Fetch<D>) -> Result<(), AllocError>
        ensures ok { OnOk result (Hears (told self.old) (call_of D.bytes fetch ∷ []) (told self.new)) }
        ensures err { OnErr result (Hears (told self.old) [] (told self.new)) };

    /// Asks peers for several keys, in order.
    fn fetch_all(&mut self, fetches: &[Fetch<D>]) -> Result<(), AllocError>
        ensures ok { OnOk result (Hears (told self.old) (map (call_of D.bytes) fetches.now) (told self.new)) }
        ensures err { OnErr result (Hears (told self.old) [] (told self.new)) };

    /// Drops what is asked for annotations that this denies, and keeps the rest.
    fn retain(&mut self, keep: Retain) -> Result<(), AllocError>
        ensures ok { OnOk result (Hears (told self.old) (retain (retain_of keep) ∷ []) (told self.new)) }
        ensures err { OnErr result (Hears (told self.old) [] (told self.new)) };
}

/// A resolver that can ask certain peers, each named by its number.
pub trait TargetedResolver<D: Named>: Resolver<D> {
    /// Asks these peers for a key.
    fn fetch_targeted(&mut self, fetch: Fetch<D>, targets: &[u32]) -> Result<(), AllocError>
        ensures ok { OnOk result (Hears (Self.told self.old) (targeted_of D.bytes fetch targets.now ∷ []) (Self.told self.new)) }
        ensures err { OnErr result (Hears (Self.told self.old) [] (Self.told self.new)) };

    /// Asks these peers for several keys, in order.
    fn fetch_all_targeted(
        &mut self,
        fetches: &[Fetch<D>],
        targets: &[u32],
    ) -> Result<(), AllocError>
        ensures ok { OnOk result (Hears (Self.told self.old) (map (λ f. targeted_of D.bytes f targets.now) fetches.now) (Self.told self.new)) }
        ensures err { OnErr result (Hears (Self.told self.old) [] (Self.told self.new)) };
}
