//! Reading what peers send for a key, and checking it in order as far as that goes without a verdict.
ghost use Rattle.std.specs.Prelude.{◌≡◌, ◌≤◌, IfOk, IfSome, MatchOption, drop, length};
ghost use Rattle.mar_cert.specs.Finalization.{finalize, notarize};
ghost use Rattle.mar_judge.specs.Found.{IsFinal, IsNotFinal, IsNotNotarized, IsNotarized};
ghost use Rattle.mar_judge.specs.Rules.{Claim};

use crate::kind::Kind;
use crate::seat::Judge;
use mar_block::ExpectedCommitment;
use mar_types::{Epoch, Error, Height, Round};
use std::alloc::{AllocError, Global};

/// The finalization of the epoch that the bytes are, and the block at the height behind it. Of certificate, epoch,
/// block, height and digest the first that fails makes it none; a block is read under what the certificate signs, and
/// so has its digest.
pub(crate) fn read_final<J: Judge>(
    judge: &J,
    alloc: Global,
    epoch: Epoch,
    height: Height,
    bytes: &[u8],
) -> Result<Option<(J::Claim, J::Block)>, AllocError>
    ensures subject { IfOk result (λ o. IfSome o (λ r. (J.claimed r.0).subject ≡ finalize)) }
    ensures read { IfOk result (λ o. MatchOption o (IsNotFinal (J.rules judge.now) epoch height bytes.now)
        (λ r. IsFinal (J.rules judge.now) epoch height bytes.now (J.claimed r.0).certificate (J.plain r.1))) }
{
    let (claim, size) = match judge.read_claim(alloc, Kind::Finalized, bytes) {
        Ok(read) => read,
        Err(Error::Memory) => return Err(AllocError),
        Err(_) => return Ok(None),
    };
    if J::round(&claim).epoch() != epoch {
        return Ok(None);
    }
    let expected = ExpectedCommitment::Untrusted(J::payload(&claim));
    let block = match judge.read_block(alloc, &bytes[size..], expected) {
        Ok(block) => block,
        Err(Error::Memory) => return Err(AllocError),
        Err(_) => return Ok(None),
    };
    if J::height(&block) != height {
        return Ok(None);
    }
    Ok(Some((claim, block)))
}

/// The notarization of the round at the front of the bytes, and how many bytes it takes. Of certificate, round and
/// payload the first that fails makes it none. The block behind it is read only once the certificate verifies.
pub(crate) fn read_notarized<J: Judge>(
    judge: &J,
    alloc: Global,
    scope: &J::Scope,
    round: Round,
    bytes: &[u8],
) -> Result<Option<(J::Claim, usize)>, AllocError>
    ensures subject { IfOk result (λ o. IfSome o (λ r. (J.claimed r.0).subject ≡ notarize)) }
    ensures fits { IfOk result (λ o. IfSome o (λ r. r.1 ≤ length bytes.now)) }
    ensures read { IfOk result (λ o. MatchOption o (IsNotNotarized (J.rules judge.now) round bytes.now)
        (λ r. IsNotarized (J.rules judge.now) round bytes.now (J.claimed r.0).certificate (drop r.1 bytes.now))) }
{
    let (claim, size) = match judge.read_claim(alloc, Kind::Notarized, bytes) {
        Ok(read) => read,
        Err(Error::Memory) => return Err(AllocError),
        Err(_) => return Ok(None),
    };
    if J::round(&claim) != round {
        return Ok(None);
    }
    if !judge.may_sign(scope, &claim) {
        return Ok(None);
    }
    Ok(Some((claim, size)))
}
