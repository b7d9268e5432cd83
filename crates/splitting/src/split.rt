// Cutting a writable handle in two, behind the checks of the ledger and of the token.
ghost use Rattle.std.specs.Prelude.{◌≡◌, ◌+◌, ◌<◌, ◌≤◌};
ghost use Rattle.rows.specs.Rows.{count_of};
ghost use Rattle.rows.specs.declared.handle.HandleRow.TheVariants as handle_row;
ghost use Rattle.splitting.specs.Splits.{back, cut_in_two, front, split_off_of, split_to_of};
ghost use Rattle.table.specs.Tables.{block_at, handle_at};

use faults::Fault;
use rows::handle::{HandleRow, Held, WritableHandle, WritableKind};
use table::checks::check_range;
use table::sound::SoundTable;
use table::table::Table;

// The first `at` bytes of what a handle holds.
fn front(handle: WritableHandle, at: u32) -> WritableHandle
    ensures { result ≡ front handle at }
{
    WritableHandle {
        kind: WritableKind::Counted,
        len: handle.len.min(at),
        capacity: at,
        ..handle
    }
}

// What it holds behind them.
fn back(handle: WritableHandle, at: u32) -> WritableHandle
    requires { handle.start + at < 4294967296 }
    ensures { result ≡ back handle at }
{
    WritableHandle {
        kind: WritableKind::Counted,
        start: handle.start + at,
        len: handle.len.saturating_sub(at),
        capacity: handle.capacity.saturating_sub(at),
        ..handle
    }
}

// One part stays in the handle's row, and the other goes to a free row. Both share the block by count.
fn cut_in_two(table: &mut Table, row: u8, kept: WritableHandle, new: u8, given: WritableHandle)
    requires { count_of (block_at table.old given.block) < 255 }
    ensures { table.new ≡ cut_in_two table.old row kept new given }
{
    table.set_handle(row, HandleRow::Writable(kept));
    table.attach(new, HandleRow::Writable(given));
}

// The handle keeps its first `at` bytes, and the row that is answered has the rest.
pub fn split_off(table: &mut SoundTable, held: Held, at: u64) -> Result<u8, Fault>
    requires { handle_at table.old.rows held.row ≡ handle_row.Writable held.handle }
    ensures { (result, table.new.rows) ≡ split_off_of table.old.rows held.row held.handle at }
{
    let Held { row, handle } = held;
    check_range(at <= handle.capacity as u64, row)?;
    let new = table.rows.vacant_handle(row)?;
    let at = at as u32;
    let rows = &mut table.rows;
    cut_in_two(rows, row, front(handle, at), new, back(handle, at));
    Ok(new)
}

// The row that is answered has the first `at` bytes, and the handle keeps the rest.
pub fn split_to(table: &mut SoundTable, held: Held, at: u64) -> Result<u8, Fault>
    requires { handle_at table.old.rows held.row ≡ handle_row.Writable held.handle }
    ensures { (result, table.new.rows) ≡ split_to_of table.old.rows held.row held.handle at }
{
    let Held { row, handle } = held;
    check_range(at <= handle.len as u64, row)?;
    let new = table.rows.vacant_handle(row)?;
    let at = at as u32;
    let rows = &mut table.rows;
    cut_in_two(rows, row, back(handle, at), new, front(handle, at));
    Ok(new)
}
