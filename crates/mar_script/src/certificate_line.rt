//! The words of lines that bring a certificate.
ghost use Rattle.std.specs.Prelude.{◌≡◌, IfOk};
ghost use Rattle.mar_cert.specs.Finalization.{Finalization as PlainFinalization, finalization_bytes};
ghost use Rattle.mar_cert.specs.MockScheme.{IsFinalization};
ghost use Rattle.mar_script.specs.Lines.{plain_finalization};
ghost use Rattle.mar_script.specs.Script.{hex};
ghost use Rattle.mar_script.specs.Words.{Yields};

use crate::words::{ParseError, bytes_of, refusal};
use mar_cert::MockFinalization;
use mar_types::Decode;
use std::alloc::Global;

/// The finalization of so many members that a word spells, whole.
pub fn finalization_of(
    alloc: Global,
    members: u32,
    word: &[u8],
) -> Result<MockFinalization, ParseError>
    ensures is_finalization { IfOk result (λ f. IsFinalization members (plain_finalization f)) }
    ensures found { IfOk result (λ f. word.now ≡ hex (finalization_bytes (plain_finalization f))) }
    ensures only { (f : PlainFinalization) → IsFinalization members f → word.now ≡ hex (finalization_bytes f)
        → Yields (λ found. plain_finalization found ≡ f) result }
{
    let bytes = match bytes_of(alloc, word) {
        Ok(bytes) => bytes,
        Err(error) => return Err(error),
    };
    match MockFinalization::decode_cfg(alloc, bytes.as_slice(), &members) {
        Ok(finalization) => {
            finalization.is_finalization(members);
            Ok(finalization)
        }
        Err(error) => Err(refusal(error)),
    }
}
