// The bytes that a memory has itself: all that it is given, but at most 4,294,967,295.
ghost use Rattle.memory.specs.Answers.{put_answer, read_answer};
ghost use Rattle.memory.specs.Faults.{own_fault};
ghost use Rattle.memory.specs.Layouts.{first_bytes};
ghost use Rattle.std.specs.Prelude.{◌≡◌, length, slice_set};

use crate::fault::MemoryFault;

// The most bytes that a memory has.
const MOST: usize = 4294967295;

pub(crate) fn cell_count(cells: &[u8]) -> u32
    ensures { result ≡ length (first_bytes cells.now) }
{
    cells.len().min(MOST) as u32
}

pub(crate) fn read_cell(cells: &[u8], position: u32) -> Result<u8, MemoryFault>
    ensures { result ≡ read_answer (first_bytes cells.now) (own_fault (length (first_bytes cells.now))) position }
{
    let size = cell_count(cells);
    if position < size {
        Ok(cells[position as usize])
    } else {
        Err(MemoryFault::own(position, size))
    }
}

pub(crate) fn put_cell(cells: &mut [u8], position: u32, byte: u8) -> Result<(), MemoryFault>
    ensures answer { result ≡ put_answer (first_bytes cells.old) (own_fault (length (first_bytes cells.old))) position }
    ensures memory { first_bytes cells.new ≡ slice_set (first_bytes cells.old) position byte }
{
    let size = cell_count(cells);
    if position < size {
        cells[position as usize] = byte;
        Ok(())
    } else {
        Err(MemoryFault::own(position, size))
    }
}
