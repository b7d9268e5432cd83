ghost use Rattle.lines.specs.LineLaw.{CutIntoLines};
ghost use Rattle.lines.specs.Lines.{line, lines_of};
ghost use Rattle.std.specs.Prelude.{◌≡◌, IfOk};

use crate::span::Span;
use memory::access::byte_at;
use memory::interface::Memory;
use std::alloc::{AllocError, Global};

// The byte that ends a line.
pub const LINE_END: u8 = b'\n';

// A line of a text that stands in a memory.
#[derive(Clone, Copy, PartialEq, Eq, Debug)]
pub struct Line {
    // Its bytes, without its end.
    pub span: Span,
    // Whether a line end follows; false only for bytes behind the last one.
    pub ended: bool,
}

impl Line {
    // The line from one position to another, without bytes if that comes first.
    pub fn between(start: u32, end: u32, ended: bool) -> Line
        ensures { result ≡ line start end ended }
    {
        let length = end.saturating_sub(start);
        Line {
            span: Span { start, length },
            ended,
        }
    }
}

// All lines of the text, in their order.
pub fn find_lines<M: Memory>(heap: Global, mem: &M) -> Result<Vec<Line>, AllocError>
    ensures answer { IfOk result (λ lines. lines.items ≡ lines_of (M.bytes mem.now)) }
    ensures law { CutIntoLines (M.bytes mem.now) (lines_of (M.bytes mem.now)) }
{
    let mut lines = Vec::new(heap);
    let mut start = 0;
    let size = mem.size();
    for position in 0..size {
        if byte_at(mem, position) == LINE_END {
            lines.push(Line::between(start, position, true))?;
            start = position + 1;
        }
    }
    if start < size {
        lines.push(Line::between(start, size, false))?;
    }
    Ok(lines)
}
