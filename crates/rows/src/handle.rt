// The rows of handles.
ghost use Rattle.rows.specs.Rows.{block_of, blocked, handle_free};
ghost use Rattle.std.specs.Prelude.{◌≡◌, if◌then◌else◌, Some, None};

use crate::slots::Slot;

// Whether a writable handle has its block to itself, or shares it by count.
#[derive(Clone, Copy, PartialEq, Eq, Debug)]
pub enum WritableKind {
    Own,
    Counted,
}

// A handle that may write: `capacity` bytes from `start` on, of which the first `len` are shown.
#[derive(Clone, Copy, PartialEq, Eq, Debug)]
pub struct WritableHandle {
    pub kind: WritableKind,
    pub block: u8,
    pub start: u32,
    pub len: u32,
    pub capacity: u32,
}

// A handle that may write, with the row in which it stands.
#[derive(Clone, Copy, PartialEq, Eq, Debug)]
pub struct Held {
    pub row: u8,
    pub handle: WritableHandle,
}

// How a read-only handle holds its bytes, with the block where it has one.
#[derive(Clone, Copy, PartialEq, Eq, Debug)]
pub enum ReadOnlyKind {
    // A view of the fixed part.
    Static,
    PromotableAlone(u8),
    PromotableCounted(u8),
    Shared(u8),
}

// A handle that only reads: it shows `len` bytes from `start` on.
#[derive(Clone, Copy, PartialEq, Eq, Debug)]
pub struct ReadOnlyHandle {
    pub kind: ReadOnlyKind,
    pub start: u32,
    pub len: u32,
}

#[derive(Clone, Copy, PartialEq, Eq, Debug)]
pub enum HandleRow {
    Free,
    Writable(WritableHandle),
    ReadOnly(ReadOnlyHandle),
}

impl Slot for HandleRow {
    ghost vacant = { handle_free };

    fn is_vacant(&self) -> bool {
        matches!(self, HandleRow::Free)
    }
}

impl HandleRow {
    // The row of its block, where it has one.
    pub fn block(self) -> Option<u8>
        ensures { result ≡ (if blocked self then Some (block_of self) else None) }
    {
        match self {
            HandleRow::Free => None,
            HandleRow::Writable(handle) => Some(handle.block),
            HandleRow::ReadOnly(handle) => match handle.kind {
                ReadOnlyKind::Static => None,
                ReadOnlyKind::PromotableAlone(block)
                | ReadOnlyKind::PromotableCounted(block)
                | ReadOnlyKind::Shared(block) => Some(block),
            },
        }
    }
}
