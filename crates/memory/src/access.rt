ghost use Rattle.std.specs.Prelude.{◌≡◌, ◌<◌, length, slice_index};

use crate::interface::Memory;

// The byte at a position that the memory has.
pub fn byte_at<M: Memory>(mem: &M, position: u32) -> u8
    requires { position < length (M.bytes mem.now) }
    ensures { result ≡ slice_index (M.bytes mem.now) position }
{
    mem.read(position).unwrap()
}
