//! Epochs that no finalization can name a new block of.
ghost use Rattle.std.specs.Prelude.{◌≡◌};
ghost use Rattle.mar_types.specs.Epochs.{closed_epoch};

use mar_types::{Epoch, Epocher, Height};

/// The newest epoch whose last height is at or below this one, or `None` where there is none, or where the epocher
/// can't place the height. Each finalization of that epoch, or of one before it, names a block at or below the height.
pub fn closed_epoch<E: Epocher>(epocher: &E, anchor: Height) -> Option<Epoch>
    ensures { result ≡ closed_epoch (E.epochs epocher.now) anchor }
{
    let info = epocher.containing(anchor)?;
    if info.last() == anchor {
        Some(info.epoch())
    } else {
        info.epoch().previous()
    }
}
