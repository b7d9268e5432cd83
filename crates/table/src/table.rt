// The plain table inside a ledger. Its rows are changed by these functions alone.
ghost use Rattle.std.specs.Prelude.{◌≡◌, ◌<◌, true};
ghost use Rattle.rows.specs.Rows.{block_of, blocked, count_of};
ghost use Rattle.table.specs.Tables.{attach, block_at, detach, handle_at, opened_table, settle, with_block, with_handle};

use rows::block::{Block, BlockRow};
use rows::handle::HandleRow;
use rows::slots::{row_at, set_row};

#[derive(Clone, Copy, PartialEq, Eq, Debug)]
pub struct Table {
    pub number: u32,
    pub opened: bool,
    // Positions below it are the fixed part.
    pub fixed: u32,
    // Positions from `fixed` up to this are the working part.
    pub limit: u32,
    pub handles: [HandleRow; 64],
    pub blocks: [BlockRow; 32],
}

impl Table {
    // Opens the table; its rows stay.
    pub fn open(&mut self, number: u32, fixed: u32, limit: u32)
        ensures { self.new ≡ opened_table self.old number fixed limit }
    {
        self.number = number;
        self.opened = true;
        self.fixed = fixed;
        self.limit = limit;
    }

    pub fn handle(&self, row: u8) -> HandleRow
        ensures { result ≡ handle_at self.now row }
    {
        row_at(&self.handles, row, HandleRow::Free)
    }

    pub fn block(&self, row: u8) -> BlockRow
        ensures { result ≡ block_at self.now row }
    {
        row_at(&self.blocks, row, BlockRow::Free)
    }

    pub fn set_handle(&mut self, row: u8, to: HandleRow)
        ensures { self.new ≡ with_handle self.old row to }
    {
        set_row(&mut self.handles, row, to);
    }

    pub(crate) fn set_block(&mut self, row: u8, to: BlockRow)
        ensures { self.new ≡ with_block self.old row to }
    {
        set_row(&mut self.blocks, row, to);
    }

    // The handle in a row, and its block with one handle more.
    pub fn attach(&mut self, row: u8, handle: HandleRow)
        requires handle_bound { count_of (block_at self.old (block_of handle)) < 255 }
        requires handle_value { blocked handle ≡ true }
        ensures { self.new ≡ attach self.old row handle }
    {
        if let Some(block) = handle.block() {
            let raised = self.block(block).raised();
            self.set_block(block, raised);
            self.set_handle(row, handle);
        }
    }

    // The row freed, and its block with one handle less.
    pub fn detach(&mut self, row: u8)
        ensures { self.new ≡ detach self.old row }
    {
        if let Some(block) = self.handle(row).block() {
            let lowered = self.block(block).lowered();
            self.set_block(block, lowered);
        }
        self.set_handle(row, HandleRow::Free);
    }

    // The block in a block row, and the handle over it in a row.
    pub fn settle(&mut self, row: u8, block_row: u8, block: Block, handle: HandleRow)
        ensures { self.new ≡ settle self.old row block_row block handle }
    {
        self.set_block(block_row, BlockRow::Live(block));
        self.set_handle(row, handle);
    }
}
