ghost use Rattle.memory.specs.Faults.{own_fault};
ghost use Rattle.memory.specs.Bounds.{own_short};
ghost use Rattle.std.specs.Prelude.{◌≡◌, length, replicate};

use crate::cells::{put_cell, read_cell};
use crate::fault::MemoryFault;
use crate::interface::Memory;

// A memory with 4,096 bytes of its own, zero at first.
#[derive(Drop)]
pub struct OwnMemory {
    cells: [u8; 4096],
    ghost whole: { length cells ≡ 4096 },
}

impl OwnMemory {
    pub fn new() -> Self
        ensures { result.cells ≡ replicate 4096 0 }
    {
        OwnMemory { cells: [0; 4096] }
    }
}

impl Memory for OwnMemory {
    ghost bytes = { λ m. m.cells };

    ghost fault = { λ m. own_fault 4096 };

    ghost short = { λ m. own_short m.cells m.whole };

    fn size(&self) -> u32 {
        4096
    }

    #[tactic(auto, using(crate::proofs::Owned::all_of_own))]
    fn read(&self, position: u32) -> Result<u8, MemoryFault> {
        read_cell(&self.cells, position)
    }

    #[tactic(auto, using(crate::proofs::Owned::all_of_own))]
    fn put(&mut self, position: u32, byte: u8) -> Result<(), MemoryFault> {
        put_cell(&mut self.cells, position, byte)
    }
}
