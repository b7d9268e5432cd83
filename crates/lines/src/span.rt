ghost use Rattle.std.specs.Prelude.{◌≡◌, ◌-◌, min, length, bytes_eq, IfOk};
ghost use Rattle.lines.specs.Spans.{span_bytes};

use memory::access::byte_at;
use memory::interface::Memory;
use std::alloc::{AllocError, Global};

// A run of positions in a memory.
#[derive(Clone, Copy, PartialEq, Eq, Debug)]
pub struct Span {
    pub start: u32,
    pub length: u32,
}

impl Span {
    // How many of its positions the memory has.
    fn within<M: Memory>(self, mem: &M) -> u32
        ensures { result ≡ min self.length (length (M.bytes mem.now) - self.start) }
    {
        mem.size().saturating_sub(self.start).min(self.length)
    }

    // Its bytes, as far as the memory has them.
    pub fn read<M: Memory>(self, heap: Global, mem: &M) -> Result<Vec<u8>, AllocError>
        ensures { IfOk result (λ found. found.items ≡ span_bytes (M.bytes mem.now) self) }
    {
        (0..self.within(mem))
            .map(|offset| byte_at(mem, self.start + offset))
            .collect(heap)
    }

    // Whether these are its bytes.
    pub fn holds<M: Memory>(self, mem: &M, wanted: &[u8]) -> bool
        ensures { result ≡ bytes_eq (span_bytes (M.bytes mem.now) self) wanted.now }
    {
        let count = self.within(mem);
        if wanted.len() != count as usize {
            return false;
        }
        (0..count).zip(wanted).all(|(offset, byte)| byte_at(mem, self.start + offset) == *byte)
    }
}
