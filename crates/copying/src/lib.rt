// Runs of bytes in any memory, for code that has checked their positions.
#![tactic(auto)]

ghost use Rattle.std.specs.Prelude.{◌≡◌, ◌+◌, ◌<◌, ◌≤◌, ◌⊎◌, length, take, drop, slice_set};
ghost use Rattle.std.proofs.Math.Seq.{paste};

use memory::access::byte_at;
use memory::interface::Memory;

// Puts a byte at a position that the memory has.
pub fn store<M: Memory>(mem: &mut M, position: u32, byte: u8)
    requires { position < length (M.bytes mem.old) }
    ensures memory { M.bytes mem.new ≡ slice_set (M.bytes mem.old) position byte }
    ensures faults { M.fault mem.new ≡ M.fault mem.old }
{
    mem.put(position, byte).unwrap();
}

// Writes the slice from a position on.
#[tactic(auto, using(std::proofs::lemmas::List::Edits::paste_none))]
pub fn write_bytes<M: Memory>(mem: &mut M, at: u32, source: &[u8])
    requires { at + length source.now ≤ length (M.bytes mem.old) }
    ensures memory { M.bytes mem.new ≡ paste (M.bytes mem.old) at source.now (length source.now) }
    ensures faults { M.fault mem.new ≡ M.fault mem.old }
{
    for (i, byte) in source.iter().enumerate() {
        store(mem, at + i as u32, *byte);
    }
}

// Copies a run of bytes to a run that begins no later, or behind it.
#[tactic(auto, using(std::proofs::lemmas::List::Edits::paste_none))]
pub fn copy_bytes<M: Memory>(mem: &mut M, from: u32, to: u32, count: u32)
    requires source { from + count ≤ length (M.bytes mem.old) }
    requires target { to + count ≤ length (M.bytes mem.old) }
    requires apart { (to ≤ from) ⊎ (from + count ≤ to) }
    ensures memory { M.bytes mem.new ≡ paste (M.bytes mem.old) to (drop from (M.bytes mem.old)) count }
    ensures faults { M.fault mem.new ≡ M.fault mem.old }
{
    for i in 0..count {
        let byte = byte_at(mem, from + i);
        store(mem, to + i, byte);
    }
}

// Fills the buffer with the bytes from a position on.
#[tactic(auto, using(std::proofs::lemmas::List::take_more, std::proofs::lemmas::List::take_more_set))]
pub fn read_into<M: Memory>(mem: &M, at: u32, out: &mut [u8])
    requires { at + length out.old ≤ length (M.bytes mem.now) }
    ensures { out.new ≡ take (length out.old) (drop at (M.bytes mem.now)) }
{
    for (i, byte) in out.iter_mut().enumerate() {
        *byte = byte_at(mem, at + i as u32);
    }
}
