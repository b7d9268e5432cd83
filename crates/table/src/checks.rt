// The checks of the calls, each with the row that its fault names.
ghost use Rattle.std.specs.Prelude.{◌≡◌, ◌+◌, ◌^◌, ◌<◌, ◌≤◌, IfOk};
ghost use Rattle.table.specs.Checks.{block_row_check, handle_row_check, memory_check, open_check, place_check, range_check};

use crate::places::find_place;
use crate::table::Table;
use faults::Fault;
use memory::interface::Memory;
use rows::slots::highest_vacant;

// The row that a fault names where there is no token.
pub const NO_ROW: u8 = 64;

pub fn check_range(within: bool, row: u8) -> Result<(), Fault>
    ensures { result ≡ range_check within row }
{
    if within {
        Ok(())
    } else {
        Err(Fault::OutOfRange { row })
    }
}

impl Table {
    pub fn check_open(&self, row: u8) -> Result<(), Fault>
        ensures { result ≡ open_check self.now row }
    {
        if self.opened {
            Ok(())
        } else {
            Err(Fault::Shut { row })
        }
    }

    // The memory has the last position of the working part.
    pub fn check_memory<M: Memory>(&self, mem: &M, row: u8) -> Result<(), Fault>
        ensures { result ≡ memory_check self.now (M.bytes mem.now) (M.fault mem.now) row }
    {
        if self.limit > 0 {
            mem.read(self.limit - 1)
                .map_err(|fault| Fault::Memory { row, fault })?;
        }
        Ok(())
    }

    pub fn vacant_handle(&self, row: u8) -> Result<u8, Fault>
        ensures { result ≡ handle_row_check self.now row }
    {
        highest_vacant(&self.handles).ok_or(Fault::NoHandleRow { row })
    }

    pub fn vacant_block(&self, row: u8) -> Result<u8, Fault>
        ensures { result ≡ block_row_check self.now row }
    {
        highest_vacant(&self.blocks).ok_or(Fault::NoBlockRow { row })
    }

    // The place of a new block, which ends inside the working part.
    #[tactic(auto, using(crate::proofs::LowestPlace::place_inside))]
    pub fn place_for(&self, size: u64, row: u8) -> Result<u32, Fault>
        ensures answer { result ≡ place_check self.now size row }
        ensures inside { IfOk result (λ place. place + size ≤ self.now.limit) }
        ensures small { IfOk result (λ place. place + size < 2 ^ 32) }
    {
        find_place(self.fixed, self.limit, &self.blocks, size)
            .map(|place| place as u32)
            .ok_or(Fault::NoPlace { row, size })
    }
}
