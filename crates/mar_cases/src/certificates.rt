//! What proposals and certificates over them are told as.
use crate::answers::is_spelled_by;
use mar_cert::{
    MockCertificate, MockFinalization, MockNotarization, MockScheme, Proposal, Scheme, Scoped,
    Subject, verify_certificates,
};
use mar_gen::number;
use mar_types::{Decode, Encode, EncodeSize, Epoch, Round, Sha256Digest, read_front};
use std::alloc::{AllocError, Global};

// No certificate that is told of takes more bytes.
const LONGEST: usize = 4096;

/// What is told of bytes under a name: `proposal`, or `certificate`, `notarization`, `finalization`, `batch` and
/// `changed`, each with `/` and a number of members.
pub(crate) fn told_as(
    alloc: Global,
    name: &str,
    bytes: &[u8],
) -> Option<Result<String, AllocError>> {
    if name == "proposal" {
        return Some(proposal(alloc, bytes));
    }
    let (kind, text) = name.split_once('/')?;
    let members = number(text.as_bytes())?;
    if members > 0xffff_ffff {
        return None;
    }
    if kind == "certificate" {
        return Some(certificate(alloc, bytes, members as u32));
    }
    if members == 0 || members > 64 {
        return None;
    }
    told_by(alloc, kind, bytes, MockScheme::new(members as u32))
}

fn told_by(
    alloc: Global,
    kind: &str,
    bytes: &[u8],
    scheme: MockScheme,
) -> Option<Result<String, AllocError>> {
    match kind {
        "notarization" => Some(notarization(alloc, bytes, scheme)),
        "finalization" => Some(finalization(alloc, bytes, scheme)),
        "batch" => Some(batch(alloc, bytes, scheme)),
        "changed" => Some(changed(alloc, bytes, scheme)),
        _ => None,
    }
}

fn proposal(alloc: Global, bytes: &[u8]) -> Result<String, AllocError> {
    match Proposal::<Sha256Digest>::decode_cfg(alloc, bytes, &()) {
        Ok(read) => {
            let spelled = is_spelled_by(alloc, &read, bytes)?;
            let size = read.encode_size();
            let most = Proposal::<Sha256Digest>::max_encode_size();
            format!(in alloc; "{read:?} {size} of {most} bytes, {spelled}")
        }
        Err(error) => error.to_string(alloc),
    }
}

fn certificate(alloc: Global, bytes: &[u8], members: u32) -> Result<String, AllocError> {
    match MockCertificate::decode_cfg(alloc, bytes, &members) {
        Ok(read) => {
            let spelled = is_spelled_by(alloc, &read, bytes)?;
            let size = read.encode_size();
            let most = MockScheme::max_certificate_size(members);
            format!(in alloc; "{read:?} {size} of {most} bytes, {spelled}")
        }
        Err(error) => error.to_string(alloc),
    }
}

fn notarization(alloc: Global, bytes: &[u8], scheme: MockScheme) -> Result<String, AllocError> {
    let read = match MockNotarization::decode_cfg(alloc, bytes, &scheme.members()) {
        Ok(read) => read,
        Err(error) => return error.to_string(alloc),
    };
    if read.certificate.encode_size() > LONGEST {
        return "too long".to_string(alloc);
    }
    let size = read.encode_size();
    let most = MockNotarization::max_encode_size::<MockScheme>(scheme.members());
    let spelled = is_spelled_by(alloc, &read, bytes)?;
    let verdict = verdict(read.verify(&Scoped::scheme(scheme)));
    let told = parts(
        alloc,
        (read.round(), read.epoch()),
        (size, most),
        spelled,
        verdict,
    )?;
    let subject = Subject::Notarize {
        proposal: read.proposal.copy(),
    };
    judged(alloc, scheme, &subject, &read.certificate, told.as_str())
}

fn finalization(alloc: Global, bytes: &[u8], scheme: MockScheme) -> Result<String, AllocError> {
    let read = match MockFinalization::decode_cfg(alloc, bytes, &scheme.members()) {
        Ok(read) => read,
        Err(error) => return error.to_string(alloc),
    };
    if read.certificate.encode_size() > LONGEST {
        return "too long".to_string(alloc);
    }
    let size = read.encode_size();
    let most = MockFinalization::max_encode_size::<MockScheme>(scheme.members());
    let spelled = is_spelled_by(alloc, &read, bytes)?;
    let verdict = verdict(read.verify(&Scoped::scheme(scheme)));
    let told = parts(
        alloc,
        (read.round(), read.epoch()),
        (size, most),
        spelled,
        verdict,
    )?;
    let subject = Subject::Finalize {
        proposal: read.proposal.copy(),
    };
    judged(alloc, scheme, &subject, &read.certificate, told.as_str())
}

fn verdict(is_verified: bool) -> &'static str {
    if is_verified {
        "verified"
    } else {
        "not verified"
    }
}

// What a certificate that was read tells of itself: where it stands, its size and the greatest, and more.
fn parts(
    alloc: Global,
    (round, epoch): (Round, Epoch),
    (size, most): (usize, usize),
    spelled: &str,
    verdict: &str,
) -> Result<String, AllocError> {
    format!(in alloc; "{round} of epoch {epoch}, {size} of {most} bytes, {spelled}, {verdict}")
}

// The subject, how many sign of how many and how many suffice, the sizes of both parts, the committee's verdict, and
// what the certificate tells.
fn judged(
    alloc: Global,
    scheme: MockScheme,
    subject: &Subject<Sha256Digest>,
    certificate: &MockCertificate,
    told: &str,
) -> Result<String, AllocError> {
    let bytes = certificate.encode(alloc)?;
    let verdict = verdict_again(alloc, scheme, subject, bytes.as_slice());
    let (signers, members, quorum) = (certificate.signers.len(), scheme.members(), scheme.quorum());
    let (size, more) = (subject.proposal().encode_size(), bytes.len());
    format!(in alloc;
        "{subject:?} {size} + {more} bytes, {signers} of {members} where {quorum} suffice: {verdict}; {told}"
    )
}

// The committee's verdict over a certificate over a subject, read by its own reader and by that of any committee.
fn verdict_again(
    alloc: Global,
    scheme: MockScheme,
    subject: &Subject<Sha256Digest>,
    bytes: &[u8],
) -> &'static str {
    let scoped = Scoped::scheme(scheme);
    let config = scoped.certificate_codec_config();
    let peers = is_verified_as(alloc, &scoped, subject, bytes, &config);
    let config = MockScheme::certificate_codec_config_unbounded();
    let stored = is_verified_as(alloc, &scoped, subject, bytes, &config);
    match (peers, stored) {
        (Some(peers), Some(stored)) => verdict(peers && stored),
        _ => "not read again",
    }
}

// Whether a certificate over a subject verifies, as a reader of this configuration reads it.
fn is_verified_as(
    alloc: Global,
    scoped: &Scoped<MockScheme>,
    subject: &Subject<Sha256Digest>,
    bytes: &[u8],
    config: &u32,
) -> Option<bool> {
    match MockCertificate::decode_cfg(alloc, bytes, config) {
        Ok(read) => Some(scoped.verify(subject, &read)),
        Err(_) => None,
    }
}

// The verdicts over finalizations that follow one another.
fn batch(alloc: Global, bytes: &[u8], scheme: MockScheme) -> Result<String, AllocError> {
    let mut left = bytes;
    let mut pairs = Vec::new(alloc);
    for _ in 0..bytes.len() {
        if left.is_empty() {
            break;
        }
        match read_front::<MockFinalization, _>(alloc, &mut left, &scheme.members()) {
            Ok(read) => {
                let MockFinalization {
                    proposal,
                    certificate,
                } = read;
                pairs.push((Subject::Finalize { proposal }, certificate))?;
            }
            Err(error) => return error.to_string(alloc),
        }
    }
    let verdicts = verify_certificates(alloc, &Scoped::scheme(scheme), pairs.as_slice())?;
    format!(in alloc; "{verdicts:?}")
}

// Whether any of the finalizations that one bit makes of this one, another at each byte, verifies.
fn changed(alloc: Global, bytes: &[u8], scheme: MockScheme) -> Result<String, AllocError> {
    for place in 0..bytes.len() {
        if is_verified_changed(alloc, bytes, scheme, place)? {
            return format!(in alloc; "verified with another byte {place}");
        }
    }
    let count = bytes.len();
    format!(in alloc; "not verified with any of {count} bytes changed")
}

// The byte with one bit changed, another at each place of seven.
fn changed_at(byte: u8, place: usize) -> u8 {
    byte ^ (1 << (place % 7))
}

fn is_verified_changed(
    alloc: Global,
    bytes: &[u8],
    scheme: MockScheme,
    place: usize,
) -> Result<bool, AllocError> {
    let mut bytes = Vec::from_slice(alloc, bytes)?;
    if let Some(byte) = bytes.get_mut(place) {
        *byte = changed_at(*byte, place);
    }
    match MockFinalization::decode_cfg(alloc, bytes.as_slice(), &scheme.members()) {
        Ok(read) => Ok(read.verify(&Scoped::scheme(scheme))),
        Err(_) => Ok(false),
    }
}
