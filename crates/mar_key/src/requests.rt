//! Requests to peers.
ghost use Rattle.std.specs.Prelude.{◌≡◌, not};
ghost use Rattle.mar_key.specs.Keys.{above_height, above_round, is_denied};
ghost use Rattle.mar_key.specs.Views.{annotation_of, cutoff_of};

use crate::annotations::{Annotation, Finalized};
use crate::cutoffs::Cutoff;
use crate::keys::Key;
use mar_types::{Height, Round};
use std::marker::Model;

/// A key, and for whom it is asked.
#[derive(Clone, Copy, Debug, PartialEq, Eq)]
pub struct Fetch<D> {
    /// What is asked for.
    pub key: Key<D>,
    /// For whom.
    pub subscriber: Annotation,
}

/// A request, which only the calls below make: the clause of each says which key it asks, and for whom. A contract sees
/// it as its `Fetch`.
#[derive(Clone, Copy, Debug, PartialEq, Eq)]
pub struct Request<D> {
    fetch: Fetch<D>,
}

impl<D> Model for Request<D> {
    ghost use Rattle.mar_key.specs.declared.requests.Fetch.{Fetch};

    ghost Value = { Fetch D };

    ghost view = { λ r. r.fetch };

    ghost inverse = { λ f. record { fetch = f } };
}

impl<D> Request<D> {
    /// The notarization of a round.
    pub const fn notarized(round: Round) -> Self
        ensures { result ≡ record { key = Key.Notarized round; subscriber = Annotation.Notarization round } }
    {
        Self::new(Key::Notarized { round }, Annotation::Notarization { round })
    }

    /// The finalization at a height.
    pub const fn finalized(height: Height) -> Self
        ensures { result ≡ record { key = Key.Finalized height; subscriber = Annotation.Finalized (Finalized.ByHeight height) } }
    {
        Self::new(
            Key::Finalized { height },
            Annotation::Finalized(Finalized::ByHeight { height }),
        )
    }

    /// A block by its commitment, with nothing that certifies it.
    pub const fn untrusted(commitment: D, height: Height) -> Self
        ensures { result ≡ record { key = Key.Block commitment; subscriber = Annotation.Untrusted height } }
    {
        Self::new(Key::Block(commitment), Annotation::Untrusted { height })
    }

    /// A block by its commitment that this node knows as certified, or an ancestor of one.
    pub const fn certified(commitment: D, height: Height) -> Self
        ensures { result ≡ record { key = Key.Block commitment; subscriber = Annotation.Certified height } }
    {
        Self::new(Key::Block(commitment), Annotation::Certified { height })
    }

    /// A block of the finalized chain whose height is known. The commitment has to be the payload of a verified
    /// finalization, or the parent's in a stored finalized block.
    pub const fn finalized_by_height(commitment: D, height: Height) -> Self
        ensures { result ≡ record { key = Key.Block commitment; subscriber = Annotation.Finalized (Finalized.ByHeight height) } }
    {
        Self::new(
            Key::Block(commitment),
            Annotation::Finalized(Finalized::ByHeight { height }),
        )
    }

    /// A block of the finalized chain of which the finalization's round alone is known. The commitment has to be the
    /// payload of a verified finalization.
    pub const fn finalized_by_round(commitment: D, round: Round) -> Self
        ensures { result ≡ record { key = Key.Block commitment; subscriber = Annotation.Finalized (Finalized.ByRound round) } }
    {
        Self::new(
            Key::Block(commitment),
            Annotation::Finalized(Finalized::ByRound { round }),
        )
    }

    const fn new(key: Key<D>, subscriber: Annotation) -> Self
        ensures { result ≡ record { key = key; subscriber = subscriber } }
    {
        Request {
            fetch: Fetch { key, subscriber },
        }
    }

    /// Whether it lives where this height is processed: it isn't bound by a height, or by a greater one.
    pub fn above_height_floor(&self, floor: Height) -> bool
        ensures { result ≡ not (is_denied (above_height floor) (annotation_of self.now.subscriber)) }
    {
        !self.fetch.subscriber.is_at_or_below(floor)
    }

    /// Whether it lives under this cutoff: it isn't bound by a round, or by one that isn't covered.
    pub fn above_round_floor(&self, cutoff: Cutoff) -> bool
        ensures { result ≡ not (is_denied (above_round (cutoff_of cutoff)) (annotation_of self.now.subscriber)) }
    {
        !self.fetch.subscriber.is_covered_by(cutoff)
    }
}

impl<D> From<Request<D>> for Fetch<D> {
    ghost from_gives = { λ request fetch. fetch ≡ request };

    fn from(request: Request<D>) -> Self {
        request.fetch
    }
}
