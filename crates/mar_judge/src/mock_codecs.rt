//! The codecs of the mock scheme's certificates and of blocks without content, as a judge reads by them.
ghost use Rattle.std.specs.Prelude.{◌≡◌, ◌⊎◌, ℕ, Bool, IfErr, IfOk};
ghost use Rattle.mar_types.specs.Epochs.{Epochs};
ghost use Rattle.mar_cert.specs.Finalization.{Finalization};
ghost use Rattle.mar_block.specs.Expected.{commitment_of};
ghost use Rattle.mar_judge.specs.MockReading.{mock_rules, plain_mock, reading_of};
ghost use Rattle.mar_judge.specs.Rules.{HasNoCertificate, IsBlockOf, IsNoBlockOf, IsReadFrom};

use mar_block::{EmptyBlock, ExpectedCommitment, StandardBlocks, Variant, WireVariant};
use mar_cert::MockFinalization;
use mar_types::{Digested, Error, Read, Sha256, Sha256Digest};
use std::alloc::Global;

/// The certificate over a proposal at the front of the bytes, of so many members, and how many bytes it takes.
pub fn read_mock_certificate(
    alloc: Global,
    members: u32,
    bytes: &[u8],
) -> Result<(MockFinalization, usize), Error>
    ensures ok { IfOk result (λ r. IsReadFrom (reading_of members) bytes.now (plain_mock r.0) r.1) }
    ensures err { IfErr result (λ e. (e ≡ Error.Memory) ⊎ HasNoCertificate (reading_of members) bytes.now) }
{
    let mut left = bytes;
    match MockFinalization::read_cfg(alloc, &mut left, &members) {
        Ok(certificate) => {
            certificate.is_finalization(members);
            Ok((certificate, bytes.len() - left.len()))
        }
        Err(error) => Err(error),
    }
}

/// The block without content that the bytes spell from the first to the last, where its digest is the expected
/// commitment. Whatever else a judge goes by, it is the block of that commitment, or there is none.
pub fn read_mock_block(
    alloc: Global,
    bytes: &[u8],
    expected: ExpectedCommitment<Sha256Digest>,
) -> Result<Digested<EmptyBlock<Sha256>>, Error>
    ensures ok { (members : ℕ) (epochs : Epochs) (scoped : ℕ → Bool) (verifies notarized : Finalization → Bool)
        → IfOk result (λ b. IsBlockOf (mock_rules members epochs scoped verifies notarized) bytes.now
        (commitment_of expected).bytes (⟦<StandardBlocks as Variant>⟧.plain b)) }
    ensures err { (members : ℕ) (epochs : Epochs) (scoped : ℕ → Bool) (verifies notarized : Finalization → Bool)
        → IfErr result (λ e. (e ≡ Error.Memory) ⊎ IsNoBlockOf (mock_rules members epochs scoped verifies notarized)
        bytes.now (commitment_of expected).bytes) }
{
    match StandardBlocks::decode_block(alloc, bytes, &(), expected) {
        Ok(block) => {
            block.inner().is_block();
            Ok(block)
        }
        Err(error) => Err(error),
    }
}
