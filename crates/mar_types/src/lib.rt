//! What all crates speak in: epochs, heights, views, terms and rounds, and the mapping from heights to epochs; how values
//! become bytes and come back; digests.
#![tactic(auto)]

mod array;
mod codec;
mod codecs;
pub mod coding;
mod commitments;
mod digest;
mod digested;
mod epochers;
mod epochs;
mod error;
mod fields;
mod heights;
mod hexadecimal;
mod integers;
mod laws;
mod non_empty_vec;
mod offsets;
mod orders;
mod participant;
mod parts;
mod rounds;
mod script_epocher;
mod sha256;
mod table_epocher;
mod terms;
mod ticket;
mod varint;
mod views;
mod words;

pub use array::{Array, Span};
pub use codec::{
    Decode, Encode, EncodeSize, FixedSize, MaxEncodeSize, Read, ReadExt, Write, read_array,
    read_byte, read_front, read_slice,
};
pub use commitments::{COMMITMENT_DIGEST_SIZE, COMMITMENT_SIZE, Commitment};
pub use digest::{Digest, Digestible, Hasher, Named};
pub use digested::Digested;
pub use epochers::{EpochInfo, EpochPhase, Epocher, FixedEpocher};
pub use epochs::Epoch;
pub use error::{Error, Kind, Reason};
pub use fields::FieldDigest;
pub use heights::{Height, HeightRange};
pub use hexadecimal::write_hex;
pub use integers::U64;
pub use laws::{numbers_compared, refusals_compared};
pub use non_empty_vec::NonEmptyVec;
pub use offsets::{Delta, EpochDelta, HeightDelta, ViewDelta};
pub use orders::{configs_compared, equal_by_parts, ordered_by_number};
pub use participant::Participant;
pub use parts::{read_pair, write_pair};
pub use rounds::{Epochable, Round, Viewable};
pub use script_epocher::ScriptEpocher;
pub use sha256::{Sha256, Sha256Digest};
pub use table_epocher::{TableEpocher, tables_are_partitions};
pub use terms::TermLength;
pub use ticket::SyncTicket;
pub use varint::UInt;
pub use views::{View, ViewRange};
pub use words::Words;
