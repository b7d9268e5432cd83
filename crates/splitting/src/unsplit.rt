// Joining two writable handles, behind the checks of the ledger and of the tokens.
ghost use Rattle.rows.specs.declared.handle.HandleRow.TheVariants as handle_row;
ghost use Rattle.splitting.specs.Joins.{appended, joint_of, merged, taken_over, try_unsplit_of, unsplit_of};
ghost use Rattle.std.specs.Prelude.{◌≡◌, ◌+◌, ◌<◌, ◌≤◌, ◌≢◌, length};
ghost use Rattle.reserve.specs.Rooms.{room_of};
ghost use Rattle.table.specs.Soundness.{Sound};
ghost use Rattle.table.specs.Tables.{detach, handle_at, with_handle};

use copying::copy_bytes;
use faults::Fault;
use growth::Growth;
use memory::interface::Memory;
use reserve::room::make_room;
use rows::handle::{HandleRow, Held, WritableHandle, WritableKind};
use table::sound::SoundTable;
use table::table::Table;

// How another handle lies to a first one.
#[derive(Clone, Copy, PartialEq, Eq, Debug)]
pub enum Joint {
    // The other holds no bytes.
    Nothing,
    // Both share a block, and the other begins where the bytes that the first shows end.
    Adjacent,
    Apart,
}

fn joint_of(first: WritableHandle, other: WritableHandle) -> Joint
    ensures { result ≡ joint_of first other }
{
    if other.capacity == 0 {
        return Joint::Nothing;
    }
    let end = first.start as u64 + first.len as u64;
    match (first.kind, other.kind) {
        (WritableKind::Counted, WritableKind::Counted)
            if first.block == other.block && end == other.start as u64 => { Joint::Adjacent }
        _ => Joint::Apart,
    }
}

// The first handle takes what the other holds, and the other ends.
fn merge(table: &mut Table, first: Held, other: Held)
    requires len { first.handle.len + other.handle.len < 4294967296 }
    requires capacity { first.handle.capacity + other.handle.capacity < 4294967296 }
    ensures { table.new ≡ with_handle (detach table.old other.row) first.row (handle_row.Writable (merged first.handle other.handle)) }
{
    table.detach(other.row);
    let merged = WritableHandle {
        len: first.handle.len + other.handle.len,
        capacity: first.handle.capacity + other.handle.capacity,
        ..first.handle
    };
    table.set_handle(first.row, HandleRow::Writable(merged));
}

// Joins the other handle to the first where they lie so, and says whether it did.
pub fn try_unsplit(table: &mut Table, first: Held, other: Held) -> bool
    requires sound { ∥ Sound table.old ∥₁ }
    requires held { handle_at table.old first.row ≡ handle_row.Writable first.handle }
    requires other_held { handle_at table.old other.row ≡ handle_row.Writable other.handle }
    ensures { (result, table.new) ≡ try_unsplit_of table.old first.row first.handle other.row other.handle }
{
    match joint_of(first.handle, other.handle) {
        Joint::Nothing => {
            table.detach(other.row);
            true
        }
        Joint::Adjacent => {
            merge(table, first, other);
            true
        }
        Joint::Apart => false,
    }
}

// The first handle ends, and its row takes over the other.
fn take_over(table: &mut Table, row: u8, other: Held)
    ensures { table.new ≡ taken_over table.old row other.row other.handle }
{
    table.detach(row);
    table.set_handle(other.row, HandleRow::Free);
    table.set_handle(row, HandleRow::Writable(other.handle));
}

// Writes the other's bytes behind those of the first, and ends the other.
fn append<M: Memory, G: Growth>(
    table: &mut SoundTable,
    mem: &mut M,
    growth: &G,
    first: Held,
    other: Held,
) -> Result<u32, Fault>
    requires held { handle_at table.old.rows first.row ≡ handle_row.Writable first.handle }
    requires other_held { handle_at table.old.rows other.row ≡ handle_row.Writable other.handle }
    requires two { first.row ≢ other.row }
    requires whole { table.old.rows.limit ≤ length (M.bytes mem.old) }
    ensures does { (result, table.new.rows, M.bytes mem.new) ≡ appended (room_of table.old.rows (M.bytes mem.old) (G.Growth.answer growth.now) first.row first.handle other.handle.len) first.row other.row other.handle }
    ensures faults { M.fault mem.new ≡ M.fault mem.old }
{
    let room = make_room(table, mem, growth, first, other.handle.len as u64)?;
    let handle = room.handle;
    copy_bytes(
        mem,
        other.handle.start,
        handle.start + handle.len,
        other.handle.len,
    );
    let longer = WritableHandle {
        len: handle.len + other.handle.len,
        ..handle
    };
    let rows = &mut table.rows;
    rows.set_handle(first.row, HandleRow::Writable(longer));
    rows.detach(other.row);
    Ok(room.slid)
}

// Joins the other handle to the first, by its bytes where they do not lie so, and answers the bytes that slid.
pub fn unsplit<M: Memory, G: Growth>(
    table: &mut SoundTable,
    mem: &mut M,
    growth: &G,
    first: Held,
    other: Held,
) -> Result<u32, Fault>
    requires held { handle_at table.old.rows first.row ≡ handle_row.Writable first.handle }
    requires other_held { handle_at table.old.rows other.row ≡ handle_row.Writable other.handle }
    requires two { first.row ≢ other.row }
    ensures does { (result, table.new.rows, M.bytes mem.new) ≡ unsplit_of table.old.rows (M.bytes mem.old) (M.fault mem.old) (G.Growth.answer growth.now) first.row first.handle other.row other.handle }
    ensures faults { M.fault mem.new ≡ M.fault mem.old }
{
    table.rows.check_memory(mem, first.row)?;
    if first.handle.len == 0 {
        take_over(&mut table.rows, first.row, other);
        return Ok(0);
    }
    if try_unsplit(&mut table.rows, first, other) {
        return Ok(0);
    }
    append(table, mem, growth, first, other)
}
