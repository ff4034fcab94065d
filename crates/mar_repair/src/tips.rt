//! Who is told of tips while gaps are filled.
ghost use Rattle.std.specs.Prelude.{◌≡◌, [], List, OnErr, OnOk, Option, ℕ};
ghost use Rattle.mar_key.specs.Hears.{Hears};
ghost use Rattle.mar_model.specs.Moves.{risen_to, tips_above};
ghost use Rattle.mar_model.specs.Step.{Report};

use mar_cert::Variant;
use mar_types::{Height, Round};
use std::alloc::AllocError;

/// Is told of tips, each above the last one.
pub trait Tips<V: Variant> {
    /// The height of the last one.
    ghost last: { Self → ℕ };

    /// What was told, in order, where it tells that.
    ghost told: { Self → Option (List Report) };

    /// The references through which it tells, which stay as they were lent.
    ghost lent: { Self → List ℕ };

    /// Tells of a finalized block of a round, where it is above the last tip.
    fn tip(&mut self, round: Round, height: Height, digest: V::Digest) -> Result<(), AllocError>
        ensures ok { OnOk result (Hears (told self.old) (tips_above (last self.old) round height (V.Digest.bytes digest)) (told self.new)) }
        ensures rises { OnOk result (last self.new ≡ risen_to (last self.old) height) }
        ensures err { OnErr result (Hears (told self.old) [] (told self.new)) }
        ensures lent { lent self.new ≡ lent self.old };
}
