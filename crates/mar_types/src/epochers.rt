//! Which heights an epoch has.
ghost use Rattle.std.specs.Prelude.{◌≡◌, ◌+◌, ◌-◌, ◌*◌, ◌/◌, ◌^◌, ◌<◌, ◌≤◌, ◌↔◌, IfSome, option_map};
ghost use Rattle.std.specs.Int.NonZero.{non_zero_u64_get};
ghost use Rattle.mar_types.specs.Epochs.{Epochs, IsPartition, IsPlaced, containing, fixed_epochs, placed_length, placed_relative};

use crate::epochs::Epoch;
use crate::heights::Height;
use crate::offsets::HeightDelta;
use std::marker::Model;
use std::num::NonZeroU64;

/// Where a height stands in its epoch.
#[derive(Clone, Copy, Debug, PartialEq, Eq)]
pub enum EpochPhase {
    /// Before the middle of the epoch.
    Early,
    /// At the middle: as far in as half the epoch's length, rounded down.
    Midpoint,
    /// After the middle of the epoch.
    Late,
}

/// An epoch with its bounds, and a height asked about. A contract sees a record of the four numbers.
#[derive(Clone, Copy, Debug, PartialEq, Eq)]
pub struct EpochInfo {
    epoch: Epoch,
    height: Height,
    first: Height,
    last: Height,
}

impl Model for EpochInfo {
    ghost use Rattle.mar_types.specs.Epochs.{Placed};

    ghost Value = { Placed };

    ghost view = { λ i. record { epoch = i.epoch; height = i.height; first = i.first; last = i.last } };

    ghost inverse = { λ i. record { epoch = i.epoch; height = i.height; first = i.first; last = i.last } };
}

impl EpochInfo {
    /// An epoch, a height, and the epoch's first and last height.
    pub const fn new(epoch: Epoch, height: Height, first: Height, last: Height) -> Self
        ensures { result ≡ record { epoch = epoch; height = height; first = first; last = last } }
    {
        EpochInfo {
            epoch,
            height,
            first,
            last,
        }
    }

    /// The epoch.
    pub const fn epoch(&self) -> Epoch
        ensures { result ≡ self.now.epoch }
    {
        self.epoch
    }

    /// The height that was asked about.
    pub const fn height(&self) -> Height
        ensures { result ≡ self.now.height }
    {
        self.height
    }

    /// The epoch's first height.
    pub const fn first(&self) -> Height
        ensures { result ≡ self.now.first }
    {
        self.first
    }

    /// The epoch's last height.
    pub const fn last(&self) -> Height
        ensures { result ≡ self.now.last }
    {
        self.last
    }

    /// How many heights the epoch has, which has to fit 64 bits.
    pub const fn length(&self) -> HeightDelta
        requires ordered { self.now.first ≤ self.now.last }
        requires fits { placed_length self.now < 2 ^ 64 }
        ensures { result ≡ placed_length self.now }
    {
        HeightDelta::new(self.last.get() - self.first.get() + 1)
    }

    /// How far into the epoch the height is.
    pub const fn relative(&self) -> Height
        requires { self.now.first ≤ self.now.height }
        ensures { result ≡ placed_relative self.now }
    {
        Height::new(self.height.get() - self.first.get())
    }

    /// Whether the height is before, at or after the middle of the epoch.
    pub const fn phase(&self) -> EpochPhase
        requires ordered { self.now.first ≤ self.now.last }
        requires fits { placed_length self.now < 2 ^ 64 }
        requires begun { self.now.first ≤ self.now.height }
        ensures early { (result ≡ EpochPhase.Early) ↔ (placed_relative self.now < placed_length self.now / 2) }
        ensures midpoint { (result ≡ EpochPhase.Midpoint) ↔ (placed_relative self.now ≡ placed_length self.now / 2) }
        ensures late { (result ≡ EpochPhase.Late) ↔ (placed_length self.now / 2 < placed_relative self.now) }
    {
        let relative = self.relative().get();
        let midpoint = self.length().get() / 2;
        if relative < midpoint {
            EpochPhase::Early
        } else if relative == midpoint {
            EpochPhase::Midpoint
        } else {
            EpochPhase::Late
        }
    }
}

/// Which heights each epoch has. Epochs are consecutive intervals from height zero on, and each has a height above
/// zero, since no epoch makes the genesis block. All nodes have to agree on them, and they never change.
pub trait Epocher: Copy + Drop {
    ghost epochs: { Self → Epochs };

    /// The epoch that has the height, or `None` where none has.
    fn containing(&self, height: Height) -> Option<EpochInfo>
        ensures epoch { option_map (λ i. i.epoch) result ≡ containing (epochs self.now) height }
        ensures placed { IfSome result (IsPlaced (epochs self.now) height) };

    /// The epoch's first height, or `None` where there is no such epoch.
    fn first(&self, epoch: Epoch) -> Option<Height>
        ensures { result ≡ option_map (λ s. s.first) (epochs self.now epoch) };

    /// The epoch's last height, or `None` where there is no such epoch.
    fn last(&self, epoch: Epoch) -> Option<Height>
        ensures { result ≡ option_map (λ s. s.last) (epochs self.now epoch) };

    ghost partition: { (e : Self) → IsPartition (epochs e) };
}

/// Epochs of one length: epoch `e` has the heights from `e * length` on, as many as the length.
#[derive(Clone, Copy, Debug, PartialEq, Eq)]
pub struct FixedEpocher {
    length: u64,
    ghost long: { 1 < length },
    ghost fits: { length < 2 ^ 64 },
}

impl FixedEpocher {
    /// Epochs of that length, which has to be above one, since epoch zero would have nothing but the genesis block.
    pub const fn new(length: NonZeroU64) -> Self
        requires { 1 < non_zero_u64_get length }
        ensures { result.length ≡ non_zero_u64_get length }
    {
        let length = length.get();
        FixedEpocher { length }
    }

    // The epoch's first and last height, or `None` where the last one would not fit 64 bits.
    fn bounds(&self, epoch: Epoch) -> Option<(Height, Height)>
        ensures { option_map (λ b. record { first = b.0; last = b.1 }) result ≡ fixed_epochs self.now.length epoch }
    {
        let first = epoch.get().checked_mul(self.length)?;
        let last = first.checked_add(self.length - 1)?;
        Some((Height::new(first), Height::new(last)))
    }

    /// The height half an epoch's length after the epoch's first one, or `None` where there is no such epoch.
    pub fn midpoint(&self, epoch: Epoch) -> Option<Height>
        ensures { result ≡ option_map (λ s. s.first + self.now.length / 2) (fixed_epochs self.now.length epoch) }
    {
        let (first, _) = self.bounds(epoch)?;
        Some(Height::new(first.get() + self.length / 2))
    }
}

impl Epocher for FixedEpocher {
    ghost use Rattle.mar_types.specs.Fixed.{fixed_partition};

    ghost epochs = { λ e. fixed_epochs e.length };

    ghost partition = { λ e. fixed_partition e.length e.long e.fits };

    fn containing(&self, height: Height) -> Option<EpochInfo> {
        let epoch = Epoch::new(height.get() / self.length);
        let (first, last) = self.bounds(epoch)?;
        Some(EpochInfo::new(epoch, height, first, last))
    }

    fn first(&self, epoch: Epoch) -> Option<Height> {
        let (first, _) = self.bounds(epoch)?;
        Some(first)
    }

    fn last(&self, epoch: Epoch) -> Option<Height> {
        let (_, last) = self.bounds(epoch)?;
        Some(last)
    }
}
