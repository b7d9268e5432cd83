ghost use Rattle.std.specs.Prelude.{◌≡◌};
ghost use Rattle.table.specs.Tables.{tally_of};

use crate::table::Table;
use rows::block::BlockRow;
use rows::slots::Slot;

// What a ledger holds: the live handles, the live blocks, and the bytes in blocks.
#[derive(Clone, Copy, PartialEq, Eq, Debug, Default)]
pub struct Tally {
    pub handles: u8,
    pub blocks: u8,
    pub bytes: u64,
}

impl Table {
    // The live handles, the live blocks and the bytes in blocks.
    pub fn tally(&self) -> Tally
        ensures { result ≡ tally_of self.now }
    {
        let mut live_handles: u8 = 0;
        for handle in &self.handles {
            if !handle.is_vacant() {
                live_handles += 1;
            }
        }
        let mut live_blocks: u8 = 0;
        let mut bytes: u64 = 0;
        for row in &self.blocks {
            if let BlockRow::Live(block) = row {
                live_blocks += 1;
                bytes += block.size as u64;
            }
        }
        Tally {
            handles: live_handles,
            blocks: live_blocks,
            bytes,
        }
    }
}
