// The rows of blocks.
ghost use Rattle.std.specs.Prelude.{◌≡◌, ◌<◌};
ghost use Rattle.rows.specs.Rows.{block_free, block_in, count_of, lowered, raised};

use crate::slots::Slot;

// A block of bytes in the working part, with the number of its handles.
#[derive(Clone, Copy, PartialEq, Eq, Debug, Default)]
pub struct Block {
    pub place: u32,
    pub size: u32,
    pub count: u8,
    pub class: u8,
}

#[derive(Clone, Copy, PartialEq, Eq, Debug)]
pub enum BlockRow {
    Free,
    Live(Block),
}

impl Slot for BlockRow {
    ghost vacant = { block_free };

    fn is_vacant(&self) -> bool {
        matches!(self, BlockRow::Free)
    }
}

impl BlockRow {
    // The block of the row; of a free row, one of no bytes.
    pub fn block(self) -> Block
        ensures { result ≡ block_in self }
    {
        match self {
            BlockRow::Free => Block::default(),
            BlockRow::Live(block) => block,
        }
    }

    // With one handle more.
    pub fn raised(self) -> BlockRow
        requires { count_of self < 255 }
        ensures { result ≡ raised self }
    {
        match self {
            BlockRow::Free => BlockRow::Free,
            BlockRow::Live(block) => BlockRow::Live(Block {
                count: block.count + 1,
                ..block
            }),
        }
    }

    // With one handle less; free once it has none.
    pub fn lowered(self) -> BlockRow
        ensures { result ≡ lowered self }
    {
        match self {
            BlockRow::Free => BlockRow::Free,
            BlockRow::Live(block) => {
                if block.count <= 1 {
                    BlockRow::Free
                } else {
                    BlockRow::Live(Block {
                        count: block.count - 1,
                        ..block
                    })
                }
            }
        }
    }
}
