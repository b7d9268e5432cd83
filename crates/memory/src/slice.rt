ghost use Rattle.memory.specs.Answers.{put_answer};
ghost use Rattle.memory.specs.Bounds.{first_short};
ghost use Rattle.memory.specs.Faults.{own_fault};
ghost use Rattle.memory.specs.Layouts.{first_bytes};
ghost use Rattle.std.specs.Prelude.{◌≡◌, length, slice_set};

use crate::cells::{cell_count, put_cell, read_cell};
use crate::fault::MemoryFault;
use crate::interface::Memory;

// A memory over a slice handed in: its first 4,294,967,295 bytes if it is longer.
#[derive(Drop)]
pub struct SliceMemory<'a> {
    slice: &'a mut [u8],
}

impl<'a> SliceMemory<'a> {
    // The memory writes the caller's own slice, which therefore ends as the memory's list.
    pub fn new(slice: &'a mut [u8]) -> Self
        ensures value { result.slice.now ≡ slice.old }
        ensures named { result.slice.ghost_name ≡ slice.entry.ghost_name }
    {
        SliceMemory { slice }
    }
}

impl<'a> Memory for SliceMemory<'a> {
    ghost bytes = { λ m. first_bytes m.slice.now };

    ghost fault = { λ m. own_fault (length (first_bytes m.slice.now)) };

    ghost short = { λ m. first_short m.slice.now };

    fn size(&self) -> u32 {
        cell_count(self.slice)
    }

    fn read(&self, position: u32) -> Result<u8, MemoryFault> {
        read_cell(self.slice, position)
    }

    // Beside what every memory promises: the slice stays the one that was handed in.
    fn put(&mut self, position: u32, byte: u8) -> Result<(), MemoryFault>
        ensures answer { result ≡ put_answer (first_bytes self.old.slice.now) (own_fault (length (first_bytes self.old.slice.now))) position }
        ensures memory { first_bytes self.new.slice.now ≡ slice_set (first_bytes self.old.slice.now) position byte }
        ensures faults { own_fault (length (first_bytes self.new.slice.now)) ≡ own_fault (length (first_bytes self.old.slice.now)) }
        ensures named { self.new.slice.ghost_name ≡ self.old.slice.ghost_name }
    {
        put_cell(self.slice, position, byte)
    }
}
