//! Telling the application of tips, each above the last one.
ghost use Rattle.std.specs.Prelude.{◌≡◌, ◌∷◌, [], OnErr, OnOk};
ghost use Rattle.mar_key.specs.Hears.{Hears};
ghost use Rattle.mar_model.specs.Moves.{risen_to, tips_above};

use crate::reporter::{Reporter, Update};
use mar_block::Variant;
use mar_repair::Tips;
use mar_types::{Height, Round};
use std::alloc::AllocError;

/// An application that is told of tips, and the last one that it was told, while both are lent.
#[derive(Drop)]
pub(crate) struct Telling<'a, A> {
    pub(crate) tip: &'a mut Height,
    pub(crate) application: &'a mut A,
}

impl<V: Variant, A: Reporter<V>> Tips<V> for Telling<'_, A> {
    ghost last = { λ t. t.tip.now };

    ghost told = { λ t. A.told t.application.now };

    ghost lent = { λ t. t.tip.ghost_name ∷ t.application.ghost_name ∷ [] };

    fn tip(&mut self, round: Round, height: Height, digest: V::Digest) -> Result<(), AllocError> {
        tell::<V, A>(self.tip, round, height, digest, self.application)
    }
}

/// Tells of a finalized block as the tip, where it is above the last one.
pub(crate) fn tell<V: Variant, A: Reporter<V>>(
    tip: &mut Height,
    round: Round,
    height: Height,
    digest: V::Digest,
    application: &mut A,
) -> Result<(), AllocError>
    ensures ok { OnOk result (Hears (A.told application.old) (tips_above tip.old round height (V.Digest.bytes digest)) (A.told application.new)) }
    ensures rises { OnOk result (tip.new ≡ risen_to tip.old height) }
    ensures err { OnErr result (Hears (A.told application.old) [] (A.told application.new)) }
{
    if height <= *tip {
        return Ok(());
    }
    application.report(Update::Tip(round, height, digest))?;
    *tip = height;
    Ok(())
}
