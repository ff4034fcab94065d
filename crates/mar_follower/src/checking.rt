//! Checking an archive.
ghost use Rattle.std.specs.Prelude.{◌≡◌, ◌<◌, ℕ, List, IfErr, IfOk, length};
ghost use Rattle.mar_follower.specs.Reports.{Accepts, EndsCheck, SoFar, TellsArchive, TellsRefusal, committee_of};
ghost use Rattle.mar_follower.specs.Segments.{IsArchive, IsRefusedBehind, Segment};
ghost use Rattle.mar_follower.specs.declared.why.Why.{Why};

use crate::check_end::CheckEnd;
use crate::judging::flaw_of;
use crate::reading::read;
use crate::report::Report;
use crate::why::Why;
use mar_cert::{MockScheme, Provider};
use mar_types::{Epocher, Error};
use std::alloc::Global;

// One segment more, and what is left behind it.
fn check_next<'a, P: Provider<Scheme = MockScheme>, E: Epocher>(
    alloc: Global,
    members: u32,
    provider: &P,
    epocher: &E,
    report: Report,
    rest: &'a [u8],
) -> Result<(Report, &'a [u8]), CheckEnd>
    requires { 0 < length rest.now }
    ensures passed { IfOk result (λ p. (bytes : List ℕ)
        → let committee = committee_of members (E.epochs epocher.now) (P.has_scheme provider.now)
        (P.verifies provider.now) in
        SoFar committee bytes rest.now report → SoFar committee bytes p.1.now p.0) }
    ensures shorter { IfOk result (λ p. length p.1.now < length rest.now) }
    ensures refused { IfErr result (λ e. (bytes : List ℕ)
        → let committee = committee_of members (E.epochs epocher.now) (P.has_scheme provider.now)
        (P.verifies provider.now) in
        SoFar committee bytes rest.now report → EndsCheck committee bytes e) }
{
    let mut left = rest;
    let segment = match read(alloc, members, &mut left) {
        Ok(segment) => segment,
        Err(Error::Memory) => return Err(CheckEnd::Memory),
        Err(_) => return Err(CheckEnd::Refused(report, Why::Grammar)),
    };
    match flaw_of(provider, epocher, report.lowest, &segment) {
        Some(why) => Err(CheckEnd::Refused(report, why)),
        None => match report.with(&segment) {
            Ok(report) => Ok((report, left)),
            Err(_) => Err(CheckEnd::Memory),
        },
    }
}

/// Checks an archive by the schemes of a provider, over certificates of the scheme's committee. It is accepted where
/// each segment passes: it is in the grammar, its round's epoch has a scheme and contains its first block's height,
/// its certificate verifies, its payload is its first block's digest, each further block is the parent of the one
/// before, and its first block stands below the segment before. Else the first segment that doesn't pass is told with
/// the first of these that it fails, and those before it. Each block of an accepted archive is the chain's at its
/// height, of each lawful chain that has its verified finalizations.
pub fn check<P: Provider<Scheme = MockScheme>, E: Epocher>(
    alloc: Global,
    scheme: MockScheme,
    provider: &P,
    epocher: &E,
    bytes: &[u8],
) -> Result<Report, CheckEnd>
    ensures passed { let committee = committee_of scheme (E.epochs epocher.now) (P.has_scheme provider.now)
        (P.verifies provider.now) in
        IfOk result (Accepts committee bytes.now) }
    ensures refused { let committee = committee_of scheme (E.epochs epocher.now) (P.has_scheme provider.now)
        (P.verifies provider.now) in
        IfErr result (EndsCheck committee bytes.now) }
    ensures archive { (segments : List Segment)
        → let committee = committee_of scheme (E.epochs epocher.now) (P.has_scheme provider.now)
        (P.verifies provider.now) in
        IsArchive committee bytes.now segments → TellsArchive segments result }
    ensures refusal { (segments : List Segment) (why : Why)
        → let committee = committee_of scheme (E.epochs epocher.now) (P.has_scheme provider.now)
        (P.verifies provider.now) in
        IsRefusedBehind committee bytes.now segments why → TellsRefusal segments why result }
{
    let members = scheme.members();
    let mut rest = bytes;
    let mut report = Report::new(alloc);
    'segments: while !rest.is_empty() {
        match check_next(alloc, members, provider, epocher, report, rest) {
            Ok((more, left)) => {
                report = more;
                rest = left;
            }
            Err(end) => return Err(end),
        }
    }
    Ok(report)
}
