// Which rule makes room behind the bytes of a writable handle.
ghost use Rattle.std.specs.Prelude.{◌≡◌, ℕ};
ghost use Rattle.rows.specs.declared.block.Block.{Block};
ghost use Rattle.rows.specs.declared.handle.WritableHandle.{WritableHandle};
ghost use Rattle.reserve.specs.RuleTable.{FirstThatFits};
ghost use Rattle.reserve.specs.Rules.{rule_of};

use rows::block::Block;
use rows::class::restored_capacity;
use rows::handle::{WritableHandle, WritableKind};

#[derive(Clone, Copy, PartialEq, Eq, Debug)]
pub enum ReserveRule {
    // The spare bytes are there.
    Keep,
    // The bytes go to the block's place.
    Slide,
    // The block grows to at least this size.
    Grow(u64),
    // The capacity becomes this, within the block.
    Widen(u32),
    // The bytes go to a new block of this size.
    MoveOut(u64),
}

// The first rule that fits.
pub fn rule_for(handle: WritableHandle, block: Block, additional: u64) -> ReserveRule
    ensures { result ≡ rule_of handle block additional }
{
    if additional <= handle.capacity.saturating_sub(handle.len) as u64 {
        return ReserveRule::Keep;
    }
    let offset = handle.start.saturating_sub(block.place);
    let wanted = additional.saturating_add(handle.len as u64);
    let need = wanted.saturating_add(offset as u64);
    // The copy must not overlap: what slides is no longer than the way that it slides.
    let slides = wanted <= block.size as u64 && handle.len <= offset;
    match handle.kind {
        WritableKind::Own if slides => ReserveRule::Slide,
        WritableKind::Own => ReserveRule::Grow(need),
        WritableKind::Counted if block.count >= 2 => {
            ReserveRule::MoveOut(wanted.max(restored_capacity(block.class) as u64))
        }
        WritableKind::Counted if need <= block.size as u64 => ReserveRule::Widen(wanted as u32),
        WritableKind::Counted if slides => ReserveRule::Slide,
        WritableKind::Counted => ReserveRule::Grow(need.max(2 * block.size as u64)),
    }
}

// The rule that is taken is the first of the table's that fits.
pub fn first_rule_that_fits_is_taken()
    ensures { (handle : WritableHandle) (block : Block) (additional : ℕ) → FirstThatFits handle block additional }
{}
