// The calls on writable handles, behind the checks of the ledger and of the tokens.
ghost use Rattle.std.specs.Prelude.{◌≡◌, ◌+◌, ◌<◌, ◌≤◌, length, IfOk};
ghost use Rattle.table.specs.Tables.{handle_at};
ghost use Rattle.rows.specs.declared.handle.HandleRow.TheVariants as handle_row;
ghost use Rattle.writable.specs.Calls.{advance_of, extend_of, from_of, make_of, read_of, reserve_of, truncate_of, try_reclaim_of, with_capacity_of};

use copying::{read_into, write_bytes};
use faults::Fault;
use growth::Growth;
use memory::interface::Memory;
use reserve::room::{make_room, reclaim_room};
use rows::block::Block;
use rows::class::class_of;
use rows::handle::{HandleRow, Held, WritableHandle, WritableKind};
use table::checks::{NO_ROW, check_range};
use table::sound::SoundTable;
use table::table::Table;

// The row and the place of a new handle.
#[derive(Clone, Copy, PartialEq, Eq, Debug)]
pub struct Made {
    pub row: u8,
    pub place: u32,
}

// A new handle over a block of its own, of which it shows the first `len` bytes.
fn make(table: &mut Table, len: u64, capacity: u64) -> Result<Made, Fault>
    requires { len ≤ capacity }
    ensures does { (result, table.new) ≡ make_of table.old len capacity }
    ensures inside { IfOk result (λ new. new.place + capacity ≤ table.old.limit) }
{
    let row = table.vacant_handle(NO_ROW)?;
    let block = table.vacant_block(NO_ROW)?;
    let place = table.place_for(capacity, NO_ROW)?;
    let size = capacity as u32;
    let handle = WritableHandle {
        kind: WritableKind::Own,
        block,
        start: place,
        len: len as u32,
        capacity: size,
    };
    let new = Block {
        place,
        size,
        count: 1,
        class: class_of(size),
    };
    table.settle(row, block, new, HandleRow::Writable(handle));
    Ok(Made { row, place })
}

pub fn with_capacity(table: &mut Table, capacity: u64) -> Result<u8, Fault>
    ensures { (result, table.new) ≡ with_capacity_of table.old capacity }
{
    let made = make(table, 0, capacity)?;
    Ok(made.row)
}

pub fn from<M: Memory>(table: &mut Table, mem: &mut M, source: &[u8]) -> Result<u8, Fault>
    ensures does { (result, table.new, M.bytes mem.new) ≡ from_of table.old (M.bytes mem.old) (M.fault mem.old) source.now }
    ensures faults { M.fault mem.new ≡ M.fault mem.old }
{
    table.check_memory(mem, NO_ROW)?;
    let size = source.len() as u64;
    let made = make(table, size, size)?;
    write_bytes(mem, made.place, source);
    Ok(made.row)
}

pub fn reserve<M: Memory, G: Growth>(
    table: &mut SoundTable,
    mem: &mut M,
    growth: &G,
    held: Held,
    additional: u64,
) -> Result<u32, Fault>
    requires held { handle_at table.old.rows held.row ≡ handle_row.Writable held.handle }
    ensures does { (result, table.new.rows, M.bytes mem.new) ≡ reserve_of table.old.rows (M.bytes mem.old) (M.fault mem.old) (G.Growth.answer growth.now) held.row held.handle additional }
    ensures faults { M.fault mem.new ≡ M.fault mem.old }
{
    table.rows.check_memory(mem, held.row)?;
    let room = make_room(table, mem, growth, held, additional)?;
    Ok(room.slid)
}

pub fn try_reclaim<M: Memory>(
    table: &mut SoundTable,
    mem: &mut M,
    held: Held,
    additional: u64,
) -> Result<Option<u32>, Fault>
    requires held { handle_at table.old.rows held.row ≡ handle_row.Writable held.handle }
    ensures does { (result, table.new.rows, M.bytes mem.new) ≡ try_reclaim_of table.old.rows (M.bytes mem.old) (M.fault mem.old) held.row held.handle additional }
    ensures faults { M.fault mem.new ≡ M.fault mem.old }
{
    table.rows.check_memory(mem, held.row)?;
    Ok(reclaim_room(table, mem, held, additional))
}

pub fn extend_from_slice<M: Memory, G: Growth>(
    table: &mut SoundTable,
    mem: &mut M,
    growth: &G,
    held: Held,
    source: &[u8],
) -> Result<u32, Fault>
    requires held { handle_at table.old.rows held.row ≡ handle_row.Writable held.handle }
    ensures does { (result, table.new.rows, M.bytes mem.new) ≡ extend_of table.old.rows (M.bytes mem.old) (M.fault mem.old) (G.Growth.answer growth.now) held.row held.handle source.now }
    ensures faults { M.fault mem.new ≡ M.fault mem.old }
{
    table.rows.check_memory(mem, held.row)?;
    let room = make_room(table, mem, growth, held, source.len() as u64)?;
    let handle = room.handle;
    write_bytes(mem, handle.start + handle.len, source);
    let longer = WritableHandle {
        len: handle.len + source.len() as u32,
        ..handle
    };
    table.rows.set_handle(held.row, HandleRow::Writable(longer));
    Ok(room.slid)
}

pub fn truncate(table: &mut Table, held: Held, len: u64)
    ensures { table.new ≡ truncate_of table.old held.row held.handle len }
{
    let Held { row, handle } = held;
    if len < handle.len as u64 {
        let len = len as u32;
        table.set_handle(row, HandleRow::Writable(WritableHandle { len, ..handle }));
    }
}

pub fn advance(table: &mut Table, held: Held, count: u64) -> Result<(), Fault>
    requires small { held.handle.start + held.handle.len < 4294967296 }
    requires shows { held.handle.len ≤ held.handle.capacity }
    ensures { (result, table.new) ≡ advance_of table.old held.row held.handle count }
{
    let Held { row, handle } = held;
    check_range(count <= handle.len as u64, row)?;
    let count = count as u32;
    let advanced = WritableHandle {
        start: handle.start + count,
        len: handle.len - count,
        capacity: handle.capacity - count,
        ..handle
    };
    table.set_handle(row, HandleRow::Writable(advanced));
    Ok(())
}

// Fills the buffer with bytes that a handle shows, from an index on.
pub fn read<M: Memory>(
    table: &Table,
    mem: &M,
    row: u8,
    start: u32,
    len: u32,
    at: u64,
    out: &mut [u8],
) -> Result<(), Fault>
    requires inside { start + len ≤ table.now.limit }
    ensures { (result, out.new) ≡ read_of table.now (M.bytes mem.now) (M.fault mem.now) row start len at out.old }
{
    table.check_memory(mem, row)?;
    check_range(at.saturating_add(out.len() as u64) <= len as u64, row)?;
    read_into(mem, start + at as u32, out);
    Ok(())
}
