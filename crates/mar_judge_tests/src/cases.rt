//! Deliveries, and what a judge makes of them.
use crate::texts::{Told, counts_text, verdicts_text};
use crate::words::{bytes_of, front, number_front};
use bytes::{BufMut, BytesMut};
use mar_cert::{MockProvider, MockScheme};
use mar_judge::{StandardJudge, judge};
use mar_key::{Annotation, Delivery, Finalized, Key, Message};
use mar_types::{Decode, Epoch, Height, Sha256Digest, TableEpocher};
use std::alloc::{AllocError, Global};

// What the judge goes by.
#[derive(Drop)]
struct Case {
    judge: StandardJudge<MockProvider, TableEpocher>,
}

impl Case {
    // How many members, and the first and the last epoch with a scheme; and what stands behind them.
    fn of(text: &str) -> (Self, &str) {
        let (members, text) = number_front(text);
        let (first, text) = number_front(text);
        let (last, text) = number_front(text);
        let members = members.clamp(1, 64) as u32;
        let scheme = MockScheme::new(members);
        let judge = StandardJudge {
            members,
            provider: MockProvider::new(scheme, Epoch::new(first), Epoch::new(last)),
            epocher: TableEpocher::new(&[10]),
        };
        (Case { judge }, text)
    }

    fn verdicts(
        &self,
        alloc: Global,
        messages: &[Message<Sha256Digest>],
    ) -> Result<Vec<Told>, AllocError> {
        judge(&self.judge, alloc, messages)
    }
}

// The key that the bytes of a word are; that of height 0 where they are none.
fn key_of(alloc: Global, word: &str) -> Key<Sha256Digest> {
    let bytes = bytes_of(alloc, word);
    match Key::<Sha256Digest>::decode_cfg(alloc, bytes.as_slice(), &()) {
        Ok(key) => key,
        Err(_) => Key::Finalized {
            height: Height::zero(),
        },
    }
}

// One delivery more, under the next ticket, for a key that was asked for once.
fn push(
    alloc: Global,
    messages: &mut Vec<Message<Sha256Digest>>,
    key: &Key<Sha256Digest>,
    value: &[u8],
) -> Result<(), AllocError> {
    let mut annotations = Vec::new(alloc);
    let height = Height::zero();
    annotations.push(Annotation::Finalized(Finalized::ByHeight { height }))?;
    let mut buf = BytesMut::new(alloc);
    buf.put_slice(value)?;
    let message = Message::Deliver {
        ticket: messages.len() as u64,
        delivery: Delivery {
            key: *key,
            annotations,
        },
        value: buf.freeze()?,
    };
    match messages.push(message) {
        Ok(()) => Ok(()),
        Err(_) => Err(AllocError),
    }
}

/// The verdicts on the values that came for keys, each behind its key, with commas between them, in one batch.
pub(crate) fn told_batch(alloc: Global, text: &str) -> Result<String, AllocError> {
    let (case, text) = Case::of(text);
    let mut messages = Vec::new(alloc);
    for pair in text.split(',') {
        let (word, value) = front(pair);
        let key = key_of(alloc, word);
        push(
            alloc,
            &mut messages,
            &key,
            bytes_of(alloc, value).as_slice(),
        )?;
    }
    let verdicts = case.verdicts(alloc, messages.as_slice())?;
    verdicts_text(alloc, verdicts.as_slice())
}

/// What becomes of each front of a value, the shortest first, in one batch.
pub(crate) fn told_cuts(alloc: Global, text: &str) -> Result<String, AllocError> {
    let (case, text) = Case::of(text);
    let (word, value) = front(text);
    let key = key_of(alloc, word);
    let bytes = bytes_of(alloc, value);
    let mut messages = Vec::new(alloc);
    for length in 0..bytes.len() {
        let part = bytes.get(..length).unwrap_or(&[]);
        push(alloc, &mut messages, &key, part)?;
    }
    let verdicts = case.verdicts(alloc, messages.as_slice())?;
    counts_text(alloc, verdicts.as_slice())
}

/// What becomes of a value with one bit changed, each in turn, in one batch.
pub(crate) fn told_bits(alloc: Global, text: &str) -> Result<String, AllocError> {
    let (case, text) = Case::of(text);
    let (word, value) = front(text);
    let key = key_of(alloc, word);
    let mut bytes = bytes_of(alloc, value);
    let mut messages = Vec::new(alloc);
    for bit in 0..bytes.len().saturating_mul(8) {
        change(bytes.as_mut_slice(), bit);
        push(alloc, &mut messages, &key, bytes.as_slice())?;
        change(bytes.as_mut_slice(), bit);
    }
    let verdicts = case.verdicts(alloc, messages.as_slice())?;
    counts_text(alloc, verdicts.as_slice())
}

// One bit is changed.
fn change(bytes: &mut [u8], bit: usize) {
    if let Some(byte) = bytes.get_mut(bit / 8) {
        *byte = *byte ^ (1 << (bit % 8));
    }
}
