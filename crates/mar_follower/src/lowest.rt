//! The lowest height of a segment.
ghost use Rattle.std.specs.Prelude.{◌≡◌};
ghost use Rattle.mar_follower.specs.Plain.{plain_segment};
ghost use Rattle.mar_follower.specs.Segments.{lowest_of};

use crate::segment::Segment;
use mar_types::Height;

impl Segment {
    /// The height of its last block.
    pub fn lowest(&self) -> Height
        ensures { result ≡ lowest_of (plain_segment self.now) }
    {
        match self.others.last() {
            Some(block) => block.height,
            None => self.top.height,
        }
    }
}
