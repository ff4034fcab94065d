//! Laws that callers rest on, each the contract of a function.
ghost use Rattle.std.specs.List.{list_any};
ghost use Rattle.std.specs.Prelude.{IsTrue, List, [], length, not, ◌≡◌, ◌≤◌};
ghost use Rattle.std.specs.Ordering.{is_eq, is_le};
ghost use Rattle.std.specs.declared.cmp.Ordering.TheVariants.{Less};
ghost use Rattle.mar_types.specs.Equal.{TellsApart};
ghost use Rattle.mar_types.specs.Round.{Round as PlainRound};
ghost use Rattle.mar_key.specs.Asked.{Asked as PlainAsked, IsOpenList, Judged as PlainJudged, annotations_of, asked_after, has_none};
ghost use Rattle.mar_key.specs.Cutoff.{covers, cutoff_le};
ghost use Rattle.mar_key.specs.KeyOrder.{annotation_cmp, key_cmp};
ghost use Rattle.mar_key.specs.Keys.{Call, IsKey, Key as PlainKey, key_bytes, key_eq};
ghost use Rattle.mar_key.specs.Views.{annotation_of, cutoff_of, finalized_of, key_of};

use crate::annotations::{Annotation, Finalized, Retain};
use crate::cutoffs::Cutoff;
use crate::floors::{Floor, Processed};
use crate::keys::Key;
use crate::open_requests::Judged;
use crate::outcomes::Outcome;
use crate::requests::{Fetch, Request};
use crate::subscription::Subscription;
use mar_types::{Digest, Read, Sha256Digest};
use std::hash::Hash;

/// Cutoffs are ordered as the definition has them, an epoch's above each round of it; one covers a round exactly where
/// it is at least the round's own; the order and the hash agree with equality, and equal cutoffs are the same.
pub fn cutoff_laws()
    ensures ordered { (c d : Cutoff) → is_le (⟦<Cutoff as Ord>⟧.cmp c d) ≡ cutoff_le (cutoff_of c) (cutoff_of d) }
    ensures above { (r : PlainRound) → ⟦<Cutoff as Ord>⟧.cmp (Cutoff.Round r) (Cutoff.Epoch r.epoch) ≡ Less }
    ensures covering { (c : Cutoff) (r : PlainRound) → covers (cutoff_of c) r ≡ is_le (⟦<Cutoff as Ord>⟧.cmp (Cutoff.Round r) c) }
    ensures equal { (c d : Cutoff) → ⟦<Cutoff as PartialEq>⟧.eq c d ≡ is_eq (⟦<Cutoff as Ord>⟧.cmp c d) }
    ensures same { (c d : Cutoff) → IsTrue (⟦<Cutoff as PartialEq>⟧.eq c d) → c ≡ d }
    ensures hashed { (c d : Cutoff) → IsTrue (⟦<Cutoff as PartialEq>⟧.eq c d)
        → ⟦<Cutoff as Hash>⟧.hash_input c ≡ ⟦<Cutoff as Hash>⟧.hash_input d }
{}

/// Keys are ordered by kind, then by what they hold, commitments by their bytes; the order and the hash agree with
/// equality, and equal keys are the same.
pub fn key_laws<D: Digest>()
    ensures ordered { (k l : Key D) → ⟦<Key<D> as Ord>⟧.cmp k l ≡ key_cmp (key_of D.bytes k) (key_of D.bytes l) }
    ensures equal { (k l : Key D) → ⟦<Key<D> as PartialEq>⟧.eq k l ≡ key_eq (key_of D.bytes k) (key_of D.bytes l) }
    ensures agreeing { (k l : Key D) → ⟦<Key<D> as PartialEq>⟧.eq k l ≡ is_eq (⟦<Key<D> as Ord>⟧.cmp k l) }
    ensures same { (k l : Key D) → IsTrue (⟦<Key<D> as PartialEq>⟧.eq k l) → k ≡ l }
    ensures hashed { (k l : Key D) → IsTrue (⟦<Key<D> as PartialEq>⟧.eq k l)
        → ⟦<Key<D> as Hash>⟧.hash_input k ≡ ⟦<Key<D> as Hash>⟧.hash_input l }
{}

/// Annotations are ordered by kind, first those of a notarization, then untrusted, certified and finalized ones, and then
/// by their round or height; two are equal exactly where all that they hold is.
pub fn annotation_laws()
    ensures ordered { (a b : Annotation) → ⟦<Annotation as Ord>⟧.cmp a b ≡ annotation_cmp (annotation_of a) (annotation_of b) }
    ensures finalized { (a b : Finalized) → ⟦<Finalized as Ord>⟧.cmp a b ≡ annotation_cmp (finalized_of a) (finalized_of b) }
    ensures same { TellsApart ⟦<Annotation as PartialEq>⟧.eq }
    ensures same_finalized { TellsApart ⟦<Finalized as PartialEq>⟧.eq }
{}

/// Requests, what they ask to drop, their outcomes and judgements, and what is promised of a name: where names are equal
/// exactly where they are the same, two of these are equal exactly where all that they hold is.
pub fn request_laws<D: PartialEq>()
    ensures retains { TellsApart ⟦<Retain as PartialEq>⟧.eq }
    ensures outcomes { TellsApart ⟦<Outcome as PartialEq>⟧.eq }
    ensures keys { TellsApart D.eq → TellsApart ⟦<Key<D> as PartialEq>⟧.eq }
    ensures fetches { TellsApart D.eq → TellsApart ⟦<Fetch<D> as PartialEq>⟧.eq }
    ensures requests { TellsApart D.eq → TellsApart ⟦<Request<D> as PartialEq>⟧.eq }
    ensures judged { TellsApart D.eq → TellsApart ⟦<Judged<D> as PartialEq>⟧.eq }
    ensures subscriptions { TellsApart D.eq → TellsApart ⟦<Subscription<D> as PartialEq>⟧.eq }
{}

/// Two floors, or two that are told of a processed height, are equal exactly where all that they hold is.
pub fn floor_laws()
    ensures processed { TellsApart ⟦<Processed as PartialEq>⟧.eq }
    ensures floors { TellsApart ⟦<Floor as PartialEq>⟧.eq }
{}

/// A key of a digest of 32 bytes has a spelling of at most 33 bytes that is read, no two have one, and nothing else is
/// read.
pub fn digest_keys()
    ensures spelled { (k : PlainKey) → IsKey k → ⟦<Key<Sha256Digest> as Read>⟧.in_grammar tt (key_bytes k) }
    ensures only { (k : PlainKey) → ⟦<Key<Sha256Digest> as Read>⟧.in_grammar tt (key_bytes k) → IsKey k }
    ensures same { (k l : PlainKey) → key_bytes k ≡ key_bytes l → k ≡ l }
    ensures short { (k : PlainKey) → IsKey k → length (key_bytes k) ≤ 33 }
{}

/// Whatever is asked, retained and judged, of the open keys none stands twice, and each is asked for somebody and for
/// nobody twice. So a key is open exactly where it has annotations.
pub fn open_key_laws()
    ensures none { IsOpenList [] }
    ensures kept { (keys : List PlainAsked) (outcomes : List PlainJudged) (asks : List Call)
        → IsOpenList keys → IsOpenList (asked_after keys outcomes asks) }
    ensures told { (keys : List PlainAsked) (key : PlainKey) → IsOpenList keys
        → has_none (annotations_of keys key) ≡ not (list_any (λ x. key_eq key x.key) keys) }
{}

impl Key<Sha256Digest> {
    /// It has a spelling that is read.
    pub fn is_key(&self)
        ensures { IsKey (key_of Sha256Digest.bytes self.now) }
    {
        match self {
            Key::Block(_) => {}
            Key::Finalized { height } => {
                let _height = height.get();
            }
            Key::Notarized { round } => {
                let _epoch = round.epoch().get();
                let _view = round.view().get();
            }
        }
    }
}
