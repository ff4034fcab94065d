//! The store of finalizations.
ghost use Rattle.std.specs.Prelude.{◌≡◌, ◌≤◌, [], ◌∷◌, IfErr, IfOk, IfSome, MatchResult, option_map};
ghost use Rattle.mar_store.specs.Watch.{HeedsOrNot, HeedsRead};
ghost use Rattle.mar_store.specs.Sizes.{IsSmall};
ghost use Rattle.mar_store.specs.Kept.{value_at, has_height};
ghost use Rattle.mar_store.specs.Changes.{Puts, Fails, left_of, IsStillOr, heights};
ghost use Rattle.mar_store.specs.Ranges.{ranges};
ghost use Rattle.mar_store.specs.Spans.{ranges_of};
ghost use Rattle.mar_store.specs.Tickets.{KeepsCovers};
ghost use Rattle.mar_store.specs.Gaps.{ranges_from};
ghost use Rattle.mar_store.specs.Lost.{wreck_of};
ghost use Rattle.mar_cert.specs.Finalization.{finalization_bytes};
ghost use Rattle.mar_model.specs.Stored.{is_certified};

use crate::item::CertificateItem;
use crate::keeps::Keeps;
use mar_block::Variant;
use mar_cert::AsFinalization;
use mar_store::{HeightSpan, Lost, Miss};
use mar_types::Height;

/// Finalizations by the height of their block. `get`, `has` and `put` are counted, as are the calls of `Keeps`.
pub trait Certificates<V: Variant, F: AsFinalization>: Keeps<CertificateItem<V, F>> {
    /// The finalization that is held at a height.
    fn get(&mut self, height: Height) -> Result<Option<F>, Miss>
        ensures found { IfOk result (λ o. option_map F.plain o ≡ value_at (Self.stored self.old).held height) }
        ensures same { Self.stored self.new ≡ Self.stored self.old }
        ensures tickets { Self.number self.new ≡ Self.number self.old }
        ensures covers { KeepsCovers (Self.number self.old) (Self.covers self.old) (Self.covers self.new) }
        ensures watched { HeedsRead (Self.watch self.old) (Self.watch self.new) result };

    /// Whether a finalization is held at a height.
    fn has(&mut self, height: Height) -> Result<bool, Miss>
        ensures found { IfOk result (λ b. b ≡ has_height (Self.stored self.old).held height) }
        ensures same { Self.stored self.new ≡ Self.stored self.old }
        ensures tickets { Self.number self.new ≡ Self.number self.old }
        ensures covers { KeepsCovers (Self.number self.old) (Self.covers self.old) (Self.covers self.new) }
        ensures watched { HeedsRead (Self.watch self.old) (Self.watch self.new) result };

    /// Puts a finalization at its block's height and digest; ignored where one of either is held. Where memory runs out before
    /// the store is asked the call isn't counted.
    fn put(
        self,
        height: Height,
        digest: &V::Digest,
        finalization: &F,
    ) -> Result<Self, Lost<Self::Wreck>>
    where
        Self: Sized,
        requires named { V.Digest.bytes digest.now ≡ V.inner (F.plain finalization.now).payload }
        requires size { IsSmall (finalization_bytes (F.plain finalization.now)) }
        ensures done { MatchResult result
            (λ s. Puts (is_certified V.inner (Self.stored self).held height (V.Digest.bytes digest.now)) (Self.stored self)
            (record { height = height; value = F.plain finalization.now }) (Self.stored s))
            (λ l. Fails (left_of (Self.stored self)) (record { height = height; value = F.plain finalization.now } ∷ []) (Self.Wreck.left (wreck_of l))) }
        ensures still { IfErr result (λ l. IfSome (Self.watch self).keeps
            (λ _. IsStillOr (left_of (Self.stored self)) (record { height = height; value = F.plain finalization.now }) (Self.Wreck.left (wreck_of l)))) }
        ensures tickets { IfOk result (λ s. Self.number self ≤ Self.number s) }
        ensures covers { IfOk result (λ s. KeepsCovers (Self.number self) (Self.covers self) (Self.covers s)) }
        ensures watched { HeedsOrNot Self.watch Self.Wreck.watch (Self.watch self) result };

    /// The ranges of held heights that overlap or follow a height.
    final fn ranges_from(&self, height: Height) -> &[HeightSpan]
        ensures { ranges_of result.now ≡ ranges_from (ranges (heights (Self.stored self.now).held)) height }
    {
        self.held_ranges().ranges_from(height)
    }
}
