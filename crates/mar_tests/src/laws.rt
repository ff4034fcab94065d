//! The laws that callers rest on which have a type parameter, each once at a type.
use mar_block::{empty_blocks_compared, mock_blocks_compared, sent_compared};
use mar_cert::{MockCertificate, certified_compared, mocks_compared};
use mar_key::{key_laws, request_laws};
use mar_types::{Sha256, Sha256Digest};

#[test]
fn values_are_compared_by_all_that_they_hold(_rt: HostRuntime) {
    certified_compared::<Sha256Digest, MockCertificate>();
    mocks_compared::<u64>();
    key_laws::<Sha256Digest>();
    request_laws::<Sha256Digest>();
    sent_compared::<Sha256Digest>();
    mock_blocks_compared::<Sha256Digest, u64>();
    empty_blocks_compared::<Sha256>();
}
