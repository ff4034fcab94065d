//! What reopened stores must hold before a life begins on them.
ghost use Rattle.std.specs.Prelude.{◌≡◌, ◌<◌, ◌≤◌, ◌^◌, ◌⊎◌, ◌||◌, ◌+◌, IfErr, IfSome, None, OnOk, Some, false, option_map};
ghost use Rattle.mar_key.specs.Processed.{at_block, first_unprocessed};
ghost use Rattle.mar_store.specs.Kept.{has_height};
ghost use Rattle.mar_model.specs.Stored.{at_own_height};
ghost use Rattle.mar_model.specs.Faults.{anchor_fault, from_genesis, genesis_fault, is_at_limit, last_height, stored_mismatch};
ghost use Rattle.mar_model.specs.Held.{GoesOn, IsNoStores, IsUsual, nothing_written, written_block};
ghost use Rattle.mar_store.specs.Sizes.{IsSmall};
ghost use Rattle.mar_model.specs.Lives.{processed_at};
ghost use Rattle.mar_model.specs.Opening.{BeginsWith, Enters, IsBeginFault, is_begun, pair_in};
ghost use Rattle.mar_model.specs.Views.{fault_of};

use mar_cert::Variant;
use mar_model::{Fault, Holds, is_same};
use mar_types::Height;

/// Judges what was found: no height is the last one, block zero is the genesis, which is stored where it is missing, and
/// the processed height is backed.
pub(crate) fn begin<V: Variant, S: Holds<V>>(
    stores: &mut S,
    genesis: &V::Block,
) -> Result<(), Fault<V::Commitment>>
    requires raw { (S.held stores.old).processed ≡ option_map at_block (pair_in (S.held stores.old)).processed }
    requires small { IsSmall (V.plain genesis.now).encoded }
    ensures ok { OnOk result (BeginsWith (V.plain genesis.now) (S.held stores.old) (S.held stores.new)) }
    ensures below { OnOk result (first_unprocessed (S.held stores.new).processed < 2 ^ 64) }
    ensures goes_on { GoesOn (fault_of V.Commitment.bytes) (S.held stores.old) (written_block (at_own_height (V.plain genesis.now)))
        (S.held stores.new) result }
    ensures kind { IfErr result (λ e. IsUsual (fault_of V.Commitment.bytes e)
        ⊎ IsBeginFault (V.plain genesis.now) (S.held stores.old) (fault_of V.Commitment.bytes e)) }
{
    if is_at_limit::<V, S>(stores) {
        return Err(Fault::HeightLimit(Height::new(u64::MAX)));
    }
    enter::<V, S>(stores, genesis)?;
    anchor::<V, S>(stores)
}

/// Whether the last height is processed or stored.
fn is_at_limit<V: Variant, S: Holds<V>>(stores: &S) -> bool
    ensures below { result ≡ false → first_unprocessed (S.held stores.now).processed < 2 ^ 64 }
    ensures value { result ≡ (is_at_limit (pair_in (S.held stores.now)).processed || (has_height (S.held stores.now).blocks.held last_height
        || has_height (S.held stores.now).certs.held last_height)) }
{
    let processed = stores.floor().is_at_limit();
    let stored = holds_last_block::<V, S>(stores) | holds_last_certificate::<V, S>(stores);
    processed | stored
}

/// Whether a block is held at the last height.
fn holds_last_block<V: Variant, S: Holds<V>>(stores: &S) -> bool
    ensures { result ≡ has_height (S.held stores.now).blocks.held last_height }
{
    is_last(stores.last_block())
}

/// Whether a certificate is held at the last height.
fn holds_last_certificate<V: Variant, S: Holds<V>>(stores: &S) -> bool
    ensures { result ≡ has_height (S.held stores.now).certs.held last_height }
{
    is_last(stores.last_certificate())
}

/// Compares block zero with the genesis, and stores it where it is missing.
fn enter<V: Variant, S: Holds<V>>(
    stores: &mut S,
    genesis: &V::Block,
) -> Result<(), Fault<V::Commitment>>
    requires small { IsSmall (V.plain genesis.now).encoded }
    ensures none { OnOk result (genesis_fault (S.held stores.old).blocks.held (from_genesis (V.plain genesis.now)) ≡ None) }
    ensures enters { OnOk result (Enters (is_begun (pair_in (S.held stores.old)).processed (S.held stores.old).blocks.held) (V.plain genesis.now)
        (S.held stores.old).blocks (S.held stores.new).blocks) }
    ensures same { OnOk result (S.held stores.new ≡ record (S.held stores.old) { blocks = (S.held stores.new).blocks; watches = (S.held stores.new).watches }) }
    ensures goes_on { GoesOn (fault_of V.Commitment.bytes) (S.held stores.old) (written_block (at_own_height (V.plain genesis.now)))
        (S.held stores.new) result }
    ensures kind { IfErr result (λ e. IsUsual (fault_of V.Commitment.bytes e)
        ⊎ (genesis_fault (S.held stores.old).blocks.held (from_genesis (V.plain genesis.now)) ≡ Some (fault_of V.Commitment.bytes e))) }
{
    let height = V::height(genesis);
    if !height.is_zero() {
        return Err(Fault::GenesisHeight(height));
    }
    match stores.block_at(height)? {
        Some(stored) => compare::<V>(genesis, &stored),
        None => enter_missing::<V, S>(stores, genesis),
    }
}

/// Ends the life where the stored block zero has another commitment than the genesis.
fn compare<V: Variant>(genesis: &V::Block, stored: &V::Block) -> Result<(), Fault<V::Commitment>>
    ensures none { OnOk result (stored_mismatch (V.plain genesis.now) (Some (V.plain stored.now)) ≡ None) }
    ensures fault { IfErr result (λ e. stored_mismatch (V.plain genesis.now) (Some (V.plain stored.now)) ≡ Some (fault_of V.Commitment.bytes e)) }
    ensures no_stores { IfErr result (λ e. IsNoStores (fault_of V.Commitment.bytes e)) }
{
    let configured = V::commitment(genesis);
    let found = V::commitment(stored);
    if is_same(configured, found) {
        Ok(())
    } else {
        Err(Fault::GenesisMismatch(configured, found))
    }
}

/// Stores block zero and makes it durable, unless delivery is past it.
fn enter_missing<V: Variant, S: Holds<V>>(
    stores: &mut S,
    genesis: &V::Block,
) -> Result<(), Fault<V::Commitment>>
    requires small { IsSmall (V.plain genesis.now).encoded }
    requires missing { has_height (S.held stores.old).blocks.held 0 ≡ false }
    ensures enters { OnOk result (Enters (is_begun (pair_in (S.held stores.old)).processed (S.held stores.old).blocks.held) (V.plain genesis.now)
        (S.held stores.old).blocks (S.held stores.new).blocks) }
    ensures same { OnOk result (S.held stores.new ≡ record (S.held stores.old) { blocks = (S.held stores.new).blocks; watches = (S.held stores.new).watches }) }
    ensures goes_on { GoesOn (fault_of V.Commitment.bytes) (S.held stores.old) (written_block (at_own_height (V.plain genesis.now)))
        (S.held stores.new) result }
    ensures usual { IfErr result (λ e. IsUsual (fault_of V.Commitment.bytes e)) }
{
    if stores.floor().is_above(Height::new(1)) {
        stores.store_block(genesis)
    } else {
        Ok(())
    }
}

/// Finds the block that backs the processed height: its own, or the one above it.
fn anchor<V: Variant, S: Holds<V>>(stores: &mut S) -> Result<(), Fault<V::Commitment>>
    requires raw { (S.held stores.old).processed ≡ option_map at_block (pair_in (S.held stores.old)).processed }
    requires below { first_unprocessed (S.held stores.old).processed < 2 ^ 64 }
    ensures none { OnOk result (anchor_fault (S.held stores.old).blocks.held (pair_in (S.held stores.old)).processed ≡ None) }
    ensures same { OnOk result (S.held stores.new ≡ record (S.held stores.old) {
      processed = option_map (processed_at (S.held stores.old).blocks.held)
          (pair_in (S.held stores.old)).processed;
      watches = (S.held stores.new).watches;
    }) }
    ensures goes_on { GoesOn (fault_of V.Commitment.bytes) (S.held stores.old) nothing_written (S.held stores.new) result }
    ensures kind { IfErr result (λ e. IsUsual (fault_of V.Commitment.bytes e)
        ⊎ (anchor_fault (S.held stores.old).blocks.held (pair_in (S.held stores.old)).processed ≡ Some (fault_of V.Commitment.bytes e))) }
{
    match stores.floor().processed() {
        None => Ok(()),
        Some(processed) => anchor_at::<V, S>(stores, processed.height()),
    }
}

/// Finds the block that backs this processed height.
fn anchor_at<V: Variant, S: Holds<V>>(
    stores: &mut S,
    height: Height,
) -> Result<(), Fault<V::Commitment>>
    requires at { (S.held stores.old).processed ≡ Some (at_block height) }
    requires below { height + 1 < 2 ^ 64 }
    ensures none { OnOk result (anchor_fault (S.held stores.old).blocks.held (Some height) ≡ None) }
    ensures same { OnOk result (S.held stores.new ≡ record (S.held stores.old) {
      processed = Some (processed_at (S.held stores.old).blocks.held height);
      watches = (S.held stores.new).watches;
    }) }
    ensures goes_on { GoesOn (fault_of V.Commitment.bytes) (S.held stores.old) nothing_written (S.held stores.new) result }
    ensures kind { IfErr result (λ e. IsUsual (fault_of V.Commitment.bytes e)
        ⊎ (anchor_fault (S.held stores.old).blocks.held (Some height) ≡ Some (fault_of V.Commitment.bytes e))) }
{
    match stores.block_at(height)? {
        Some(_block) => Ok(()),
        None => anchor_above::<V, S>(stores, height),
    }
}

/// Finds the block above a processed height whose own isn't held.
fn anchor_above<V: Variant, S: Holds<V>>(
    stores: &mut S,
    height: Height,
) -> Result<(), Fault<V::Commitment>>
    requires at { (S.held stores.old).processed ≡ Some (at_block height) }
    requires below { height + 1 < 2 ^ 64 }
    requires missing { has_height (S.held stores.old).blocks.held height ≡ false }
    ensures none { OnOk result (anchor_fault (S.held stores.old).blocks.held (Some height) ≡ None) }
    ensures same { OnOk result (S.held stores.new ≡ record (S.held stores.old) {
      processed = Some (processed_at (S.held stores.old).blocks.held height);
      watches = (S.held stores.new).watches;
    }) }
    ensures goes_on { GoesOn (fault_of V.Commitment.bytes) (S.held stores.old) nothing_written (S.held stores.new) result }
    ensures kind { IfErr result (λ e. IsUsual (fault_of V.Commitment.bytes e)
        ⊎ (anchor_fault (S.held stores.old).blocks.held (Some height) ≡ Some (fault_of V.Commitment.bytes e))) }
{
    match stores.block_at(height.next())? {
        Some(_block) => {
            stores.without_block(height);
            Ok(())
        }
        None => Err(Fault::Unbacked(height)),
    }
}

/// Whether an index is the last one.
fn is_last(index: Option<Height>) -> bool
    ensures value { result ≡ is_at_limit index }
    ensures fits { IfSome index (λ h. h ≤ last_height) }
{
    match index {
        None => false,
        Some(index) => index.get() == u64::MAX,
    }
}
