//! What a check tells of an archive.
ghost use Rattle.std.specs.Prelude.{◌≡◌, ◌++◌, ◌∷◌, ◌+◌, ◌-◌, ◌^◌, [], None, Some, IfOk, length, min};
ghost use Rattle.mar_follower.specs.Plain.{plain_segment};
ghost use Rattle.mar_follower.specs.Reports.{passed_of};
ghost use Rattle.mar_follower.specs.Segments.{lowest_of, segment_blocks};

use crate::passed::Passed;
use crate::segment::Segment;
use mar_types::Height;
use std::alloc::{AllocError, Global};

/// The segments of an archive that passed, from its front on.
#[derive(Drop)]
pub struct Report {
    /// The segments, in order.
    pub segments: Vec<Passed>,
    /// How many blocks they have; the count stops at the type's last number.
    pub blocks: u64,
    /// The lowest height of the last one.
    pub lowest: Option<Height>,
}

impl Report {
    // Of no segment.
    pub(crate) fn new(alloc: Global) -> Self
        ensures segments { result.segments.items ≡ [] }
        ensures counted { result.blocks ≡ 0 }
        ensures lowest { result.lowest ≡ None }
    {
        Report {
            segments: Vec::new(alloc),
            blocks: 0,
            lowest: None,
        }
    }

    // Of one segment more.
    pub(crate) fn with(self, segment: &Segment) -> Result<Self, AllocError>
        ensures segments { IfOk result (λ r. r.segments.items
            ≡ self.segments.items ++ passed_of (plain_segment segment.now) ∷ []) }
        ensures counted { IfOk result (λ r. r.blocks
            ≡ min (self.blocks + length (segment_blocks (plain_segment segment.now))) (2 ^ 64 - 1)) }
        ensures lowest { IfOk result (λ r. r.lowest ≡ Some (lowest_of (plain_segment segment.now))) }
    {
        let Report {
            mut segments,
            blocks,
            ..
        } = self;
        let lowest = segment.lowest();
        let passed = Passed {
            top: segment.top.height,
            lowest,
            round: segment.finalization.round(),
        };
        if segments.push(passed).is_err() {
            return Err(AllocError);
        }
        let more = segment.others.len() as u64 + 1;
        Ok(Report {
            segments,
            blocks: blocks.saturating_add(more),
            lowest: Some(lowest),
        })
    }
}
