//! What is open with a resolver.
ghost use Rattle.std.specs.Prelude.{◌≡◌, ◌∷◌, ◌++◌, [], IfOk, OnErr, OnOk, false, filter, fold, if◌then◌else◌, map, not, take, ℕ};
ghost use Rattle.std.specs.List.{list_any};
ghost use Rattle.mar_key.specs.Asked.{IsAskedInPart, after_ask, after_outcome, annotations_of, asked_after, is_idle, newly_asked, with_annotation, with_fetch, with_retain, without_denied};
ghost use Rattle.mar_key.specs.Keys.{annotation_eq, key_eq};
ghost use Rattle.mar_key.specs.Views.{annotation_of, key_of, retain_of};
ghost use Rattle.mar_key.specs.Recorded.{ask_of, asked_of, call_key, judged_of};

use crate::annotations::{Annotation, Retain};
use crate::keys::Key;
use crate::outcomes::Outcome;
use crate::recorder::Ask;
use crate::requests::Fetch;
use mar_types::Digest;
use std::alloc::{AllocError, Global};
use std::marker::Model;

/// A key that is open, with the annotations that it is asked for, in the order in which they came.
#[derive(Drop)]
pub struct Asked<D> {
    pub key: Key<D>,
    pub annotations: Vec<Annotation>,
}

/// The judgement of one delivery.
#[derive(Clone, Copy, Debug, PartialEq, Eq)]
pub struct Judged<D> {
    pub ticket: u64,
    pub key: Key<D>,
    pub outcome: Outcome,
}

/// What is open with a resolver: keys, with the annotations that each is asked for, in the order in which they were first
/// asked. A contract sees the list.
#[derive(Drop)]
pub struct OpenRequests<D: Digest> {
    alloc: Global,
    keys: Vec<Asked<D>>,
}

impl<D: Digest> Model for OpenRequests<D> {
    ghost use Rattle.std.specs.Prelude.{List, map};
    ghost use Rattle.mar_key.specs.Asked.{Asked};
    ghost use Rattle.mar_key.specs.Recorded.{asked_of};

    ghost Value = { List Asked };

    ghost view = { λ r. map (asked_of D.bytes) r.keys.items };
}

impl<D: Digest> OpenRequests<D> {
    /// Nothing is open.
    pub fn new(alloc: Global) -> Self
        ensures { result ≡ [] }
    {
        OpenRequests {
            alloc,
            keys: Vec::new(alloc),
        }
    }

    /// The open keys.
    pub fn keys(&self) -> &[Asked<D>]
        ensures { map (asked_of D.bytes) result.now ≡ self.now }
    {
        self.keys.as_slice()
    }

    /// The annotations that the key is asked for, none where it isn't open.
    pub fn annotations_of(&self, key: &Key<D>) -> &[Annotation]
        ensures { map annotation_of result.now ≡ annotations_of self.now (key_of D.bytes key.now) }
    {
        annotations_in(self.keys.as_slice(), key)
    }

    /// Takes in what a script line did: first the judgements of its deliveries, then what it asked, so that what it asks
    /// afresh stays open. Where memory runs out, the judgements and the first so many of the asks are taken in.
    pub fn settle(&mut self, judged: &[Judged<D>], asks: &[Ask<D>]) -> Result<(), AllocError>
        ensures ok { OnOk result (self.new ≡ asked_after self.old (map (judged_of D.bytes) judged.now) (map (ask_of D.bytes) asks.now)) }
        ensures err { OnErr result (IsAskedInPart self.old (map (judged_of D.bytes) judged.now) (map (ask_of D.bytes) asks.now) self.new) }
    {
        close_all(&mut self.keys, judged);
        add_asks(self.alloc, &mut self.keys, asks)
    }
}

/// Whether two keys are the same.
pub fn same_key<D: Digest>(key: &Key<D>, other: &Key<D>) -> bool
    ensures { result ≡ key_eq (key_of D.bytes key.now) (key_of D.bytes other.now) }
{
    match key {
        Key::Block(commitment) => match other {
            Key::Block(other) => *commitment == *other,
            Key::Finalized { .. } | Key::Notarized { .. } => false,
        },
        Key::Finalized { height } => match other {
            Key::Finalized { height: other } => *height == *other,
            Key::Block(_) | Key::Notarized { .. } => false,
        },
        Key::Notarized { round } => match other {
            Key::Notarized { round: other } => *round == *other,
            Key::Block(_) | Key::Finalized { .. } => false,
        },
    }
}

/// Whether two annotations are the same.
fn same_annotation(annotation: &Annotation, other: &Annotation) -> bool
    ensures { result ≡ annotation_eq (annotation_of annotation.now) (annotation_of other.now) }
{
    *annotation == *other
}

// Whether the annotation is among these.
fn has_annotation(annotations: &[Annotation], annotation: &Annotation) -> bool
    ensures { result ≡ list_any (λ a. annotation_eq (annotation_of annotation.now) (annotation_of a)) annotations.now }
{
    annotations
        .iter()
        .any(|other| same_annotation(annotation, other))
}

// Adds the annotation, unless it is there.
fn add_annotation(
    annotations: &mut Vec<Annotation>,
    annotation: Annotation,
) -> Result<(), AllocError>
    ensures ok { OnOk result (map annotation_of annotations.new.items ≡ with_annotation (annotation_of annotation) (map annotation_of annotations.old.items)) }
    ensures err { OnErr result (annotations.new.items ≡ annotations.old.items) }
{
    let found = has_annotation(annotations.as_slice(), &annotation);
    if !found {
        annotations.push(annotation)?;
    }
    Ok(())
}

// Adds the annotation to the key's and answers true, or answers false where the key isn't open.
fn add_to_key<D: Digest>(keys: &mut [Asked<D>], fetch: &Fetch<D>) -> Result<bool, AllocError>
    ensures ok { IfOk result (λ found. map (asked_of D.bytes) keys.new ++ (if found then [] else newly_asked (call_key D.bytes fetch.now)
        (annotation_of fetch.now.subscriber) ∷ [])
        ≡ with_fetch (call_key D.bytes fetch.now) (annotation_of fetch.now.subscriber) (map (asked_of D.bytes) keys.old)) }
    ensures absent { IfOk result (λ found. found ≡ false → map (asked_of D.bytes) keys.new ≡ map (asked_of D.bytes) keys.old) }
    ensures err { OnErr result (map (asked_of D.bytes) keys.new ≡ map (asked_of D.bytes) keys.old) }
{
    for asked in keys.iter_mut() {
        let found = same_key(&fetch.key, &asked.key);
        if found {
            add_annotation(&mut asked.annotations, fetch.subscriber)?;
            return Ok(true);
        }
    }
    Ok(false)
}

// Adds the annotation to the key's, and the key where it isn't open.
fn add_fetch<D: Digest>(
    alloc: Global,
    keys: &mut Vec<Asked<D>>,
    fetch: &Fetch<D>,
) -> Result<(), AllocError>
    ensures ok { OnOk result (map (asked_of D.bytes) keys.new.items ≡ with_fetch (call_key D.bytes fetch.now) (annotation_of fetch.now.subscriber)
        (map (asked_of D.bytes) keys.old.items)) }
    ensures err { OnErr result (map (asked_of D.bytes) keys.new.items ≡ map (asked_of D.bytes) keys.old.items) }
{
    let found = add_to_key(keys.as_mut_slice(), fetch)?;
    if !found {
        let annotations = vec![in alloc; fetch.subscriber]?;
        keys.push(Asked {
            key: fetch.key,
            annotations,
        })?;
    }
    Ok(())
}

// Drops the annotations that this denies.
fn deny<D: Digest>(asked: &mut Asked<D>, keep: &Retain)
    ensures { asked_of D.bytes asked.new ≡ without_denied (retain_of keep.now) (asked_of D.bytes asked.old) }
{
    asked
        .annotations
        .retain(|annotation| !keep.denies(annotation));
}

// Drops the annotations that this denies, at each key.
fn deny_all<D: Digest>(keys: &mut [Asked<D>], keep: &Retain)
    ensures { map (asked_of D.bytes) keys.new ≡ map (without_denied (retain_of keep.now)) (map (asked_of D.bytes) keys.old) }
{
    for asked in keys.iter_mut() {
        deny(asked, keep);
    }
}

// Whether the key is asked for nobody.
fn is_idle<D: Digest>(asked: &Asked<D>) -> bool
    ensures { result ≡ is_idle (asked_of D.bytes asked.now) }
{
    asked.annotations.is_empty()
}

// Drops the annotations that this denies, and the keys that have none left.
fn retain_keys<D: Digest>(keys: &mut Vec<Asked<D>>, keep: &Retain)
    ensures { map (asked_of D.bytes) keys.new.items ≡ with_retain (retain_of keep.now) (map (asked_of D.bytes) keys.old.items) }
{
    deny_all(keys.as_mut_slice(), keep);
    keys.retain(|asked| !is_idle(asked));
}

// Drops the key.
fn close_key<D: Digest>(keys: &mut Vec<Asked<D>>, key: &Key<D>)
    ensures { map (asked_of D.bytes) keys.new.items ≡ filter (λ x. not (key_eq (key_of D.bytes key.now) x.key)) (map (asked_of D.bytes) keys.old.items) }
{
    keys.retain(|asked| !same_key(key, &asked.key));
}

// Drops the key, unless what came for it was invalid.
fn close_judged<D: Digest>(keys: &mut Vec<Asked<D>>, judged: &Judged<D>)
    ensures { map (asked_of D.bytes) keys.new.items ≡ after_outcome (map (asked_of D.bytes) keys.old.items) (judged_of D.bytes judged.now) }
{
    match judged.outcome {
        Outcome::Complete => close_key(keys, &judged.key),
        Outcome::Ignored => close_key(keys, &judged.key),
        Outcome::Invalid => {}
    }
}

// Takes in the judgements of a line, in order.
fn close_all<D: Digest>(keys: &mut Vec<Asked<D>>, judged: &[Judged<D>])
    ensures { map (asked_of D.bytes) keys.new.items ≡ fold after_outcome (map (asked_of D.bytes) keys.old.items) (map (judged_of D.bytes) judged.now) }
{
    for one in judged {
        close_judged(keys, one);
    }
}

// Takes in one ask.
fn add_ask<D: Digest>(
    alloc: Global,
    keys: &mut Vec<Asked<D>>,
    ask: &Ask<D>,
) -> Result<(), AllocError>
    ensures ok { OnOk result (map (asked_of D.bytes) keys.new.items ≡ after_ask (map (asked_of D.bytes) keys.old.items) (ask_of D.bytes ask.now)) }
    ensures err { OnErr result (map (asked_of D.bytes) keys.new.items ≡ map (asked_of D.bytes) keys.old.items) }
{
    match ask {
        Ask::Fetch(fetch) => add_fetch(alloc, keys, fetch),
        Ask::Targeted(fetch, _) => add_fetch(alloc, keys, fetch),
        Ask::Retain(keep) => {
            retain_keys(keys, keep);
            Ok(())
        }
    }
}

// Takes in asks, in order.
fn add_asks<D: Digest>(
    alloc: Global,
    keys: &mut Vec<Asked<D>>,
    asks: &[Ask<D>],
) -> Result<(), AllocError>
    ensures ok { OnOk result (map (asked_of D.bytes) keys.new.items ≡ fold after_ask (map (asked_of D.bytes) keys.old.items) (map (ask_of D.bytes) asks.now)) }
    ensures err { OnErr result ((taken : ℕ) × (map (asked_of D.bytes) keys.new.items ≡ fold after_ask (map (asked_of D.bytes) keys.old.items)
        (take taken (map (ask_of D.bytes) asks.now)))) }
{
    for ask in asks {
        add_ask(alloc, keys, ask)?;
    }
    Ok(())
}

// The annotations of the key among these, none where it isn't there.
fn annotations_in<'a, D: Digest>(keys: &'a [Asked<D>], key: &Key<D>) -> &'a [Annotation]
    ensures { map annotation_of result.now ≡ annotations_of (map (asked_of D.bytes) keys.now) (key_of D.bytes key.now) }
{
    for asked in keys {
        let found = same_key(key, &asked.key);
        if found {
            return asked.annotations.as_slice();
        }
    }
    &[]
}
