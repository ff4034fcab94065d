//! Epochs of varying lengths.
ghost use Rattle.std.specs.Prelude.{List, ℕ, ◌≡◌, ◌+◌, ◌∷◌, ◌^◌, ◌<◌, ◌≤◌, [], length, option_map, slice_index};
ghost use Rattle.mar_types.specs.Epochs.{IsPartition, fixed_epochs};
ghost use Rattle.mar_types.specs.Tables.{IsTable, first_of, table_epochs, table_size};

use crate::epochers::{EpochInfo, Epocher};
use crate::epochs::Epoch;
use crate::heights::Height;

/// Epochs by a table of lengths: epoch `e` has as many heights as the length at place `e` says, and past the table each
/// has as many as the last length says.
#[derive(Clone, Copy)]
pub struct TableEpocher {
    lengths: [u32; 64],
    count: usize,
    ghost some: { 0 < count },
    ghost few: { count ≤ 64 },
    ghost held: { count ≤ length lengths },
    ghost long: { 1 < slice_index lengths 0 },
    ghost fits: { slice_index lengths 0 ≤ 2 ^ 64 },
    ghost positive: { (i : ℕ) → i < count → 0 < slice_index lengths i },
}

impl TableEpocher {
    ghost use Rattle.mar_types.specs.TableEpochs.{lengths_of};

    /// Epochs of these lengths: 1 to 64 of them, each above zero, and the first above one, since epoch zero would have
    /// nothing but the genesis block.
    pub fn new(lengths: &[u32]) -> Self
        requires { IsTable lengths.now }
        ensures { lengths_of result ≡ lengths.now }
    {
        let count = lengths.len();
        let mut table = [0; 64];
        table[..count].copy_from_slice(lengths);
        TableEpocher {
            lengths: table,
            count,
        }
    }

    // The first height of the epoch at that place of the table.
    fn start(&self, place: usize) -> u64
        requires { place < self.now.count }
        ensures start { result ≡ first_of (table_size (lengths_of self.now)) place }
        ensures fits { result < 2 ^ 40 }
    {
        let mut start = 0;
        'lengths: for earlier in 0..place {
            start += u64::from(self.lengths[earlier]);
        }
        start
    }

    // The epoch's first and last height, or `None` where the last one would not fit 64 bits.
    fn bounds(&self, epoch: Epoch) -> Option<(Height, Height)>
        ensures { option_map (λ b. record { first = b.0; last = b.1 }) result
            ≡ table_epochs (lengths_of self.now) epoch }
    {
        let number = epoch.get();
        let place = number.min(self.count as u64 - 1);
        let length = u64::from(self.lengths[place as usize]);
        let past = (number - place).checked_mul(length)?;
        let first = self.start(place as usize).checked_add(past)?;
        let last = first.checked_add(length - 1)?;
        Some((Height::new(first), Height::new(last)))
    }

    // The epoch that would have the height if no height were too great for one.
    fn epoch_at(&self, height: Height) -> Epoch
        ensures begun { first_of (table_size (lengths_of self.now)) result ≤ height }
        ensures goes_on { height < first_of (table_size (lengths_of self.now)) (result + 1) }
    {
        let number = height.get();
        let mut start = 0;
        'lengths: for place in 0..self.count - 1 {
            let length = u64::from(self.lengths[place]);
            if number - start < length {
                return Epoch::new(place as u64);
            }
            start += length;
        }
        let last = u64::from(self.lengths[self.count - 1]);
        Epoch::new(self.count as u64 - 1 + (number - start) / last)
    }
}

impl Epocher for TableEpocher {
    ghost use Rattle.mar_types.specs.TableEpochs.{lengths_of};
    ghost use Rattle.mar_types.specs.TableLemmas.{kept_partition};

    ghost epochs = { λ e. table_epochs (lengths_of e) };

    ghost partition = { λ e. kept_partition e.lengths e.count e.some e.held e.long e.fits e.positive };

    fn containing(&self, height: Height) -> Option<EpochInfo> {
        let epoch = self.epoch_at(height);
        let (first, last) = self.bounds(epoch)?;
        Some(EpochInfo::new(epoch, height, first, last))
    }

    fn first(&self, epoch: Epoch) -> Option<Height> {
        let (first, _) = self.bounds(epoch)?;
        Some(first)
    }

    fn last(&self, epoch: Epoch) -> Option<Height> {
        let (_, last) = self.bounds(epoch)?;
        Some(last)
    }
}

/// The epochs of a table whose first length fits are consecutive intervals of heights from 0 on, each with a height
/// above zero; and those of a table of one length are the epochs of that length.
pub fn tables_are_partitions()
    ensures partition { (lengths : List ℕ) → IsTable lengths → slice_index lengths 0 ≤ 2 ^ 64
        → IsPartition (table_epochs lengths) }
    ensures one_length { (n e : ℕ) → table_epochs (n ∷ []) e ≡ fixed_epochs n e }
{}
