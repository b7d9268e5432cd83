// Room behind the bytes of a writable handle.
ghost use Rattle.std.specs.Prelude.{◌≡◌, ◌+◌, ◌≤◌, length};
ghost use Rattle.table.specs.Soundness.{Sound};
ghost use Rattle.table.specs.Tables.{block_at, handle_at};
ghost use Rattle.rows.specs.declared.block.BlockRow.TheVariants as block_row;
ghost use Rattle.rows.specs.declared.handle.HandleRow.TheVariants as handle_row;
ghost use Rattle.reserve.specs.Rooms.{grow_of, move_out_of, moved_to, need_check, reclaim_of, room_of, slide_of, widen_of};
ghost use Rattle.reserve.specs.Rules.{offset};

use crate::rules::{ReserveRule, rule_for};
use copying::copy_bytes;
use faults::Fault;
use growth::Growth;
use memory::interface::Memory;
use rows::block::Block;
use rows::handle::{HandleRow, Held, WritableHandle, WritableKind};
use table::sound::SoundTable;
use table::table::Table;

// A handle once there is room, and the bytes that slid.
#[derive(Clone, Copy, PartialEq, Eq, Debug)]
pub struct Room {
    pub slid: u32,
    pub handle: WritableHandle,
}

// A handle in its row, and the block in which it lies.
#[derive(Clone, Copy)]
struct Seat {
    held: Held,
    block: Block,
    ghost before: { block.place ≤ held.handle.start },
    ghost behind: { held.handle.start + held.handle.len ≤ block.place + block.size },
}

impl Seat {
    // How far behind the block's place the handle starts.
    fn offset(self) -> u32
        ensures { result ≡ offset self.held.handle self.block }
    {
        self.held.handle.start - self.block.place
    }
}

// The handle from another position on, with another capacity.
fn moved_to(handle: WritableHandle, start: u32, capacity: u32) -> WritableHandle
    ensures { result ≡ moved_to handle start capacity }
{
    WritableHandle {
        start,
        capacity,
        ..handle
    }
}

// The bytes go to the block's place.
fn slide<M: Memory>(table: &mut Table, mem: &mut M, seat: Seat) -> Room
    requires { seat.held.handle.start + seat.held.handle.len ≤ length (M.bytes mem.old) }
    ensures does { (result, table.new, M.bytes mem.new) ≡ slide_of table.old (M.bytes mem.old) seat.held.row seat.held.handle seat.block }
    ensures faults { M.fault mem.new ≡ M.fault mem.old }
{
    let Held { row, handle } = seat.held;
    let Block { place, size, .. } = seat.block;
    copy_bytes(mem, handle.start, place, handle.len);
    let handle = moved_to(handle, place, size);
    table.set_handle(row, HandleRow::Writable(handle));
    Room {
        slid: handle.len,
        handle,
    }
}

fn check_need(table: &Table, need: u64, row: u8) -> Result<(), Fault>
    ensures { result ≡ need_check table.now need row }
{
    if need <= table.limit.saturating_sub(table.fixed) as u64 {
        Ok(())
    } else {
        Err(Fault::NoPlace { row, size: need })
    }
}

// The block grows to what the growth rule answers and keeps its row. The old span is taken until the bytes are copied.
fn grow<M: Memory, G: Growth>(
    table: &mut Table,
    mem: &mut M,
    growth: &G,
    seat: Seat,
    need: u64,
) -> Result<Room, Fault>
    requires sound { ∥ Sound table.old ∥₁ }
    requires over { block_at table.old seat.held.handle.block ≡ block_row.Live seat.block }
    requires whole { table.old.limit ≤ length (M.bytes mem.old) }
    requires enough { offset seat.held.handle seat.block + seat.held.handle.len ≤ need }
    ensures does { (result, table.new, M.bytes mem.new) ≡ grow_of table.old (M.bytes mem.old) (G.Growth.answer growth.now) seat.held.row seat.held.handle seat.block need }
    ensures faults { M.fault mem.new ≡ M.fault mem.old }
{
    let Held { row, handle } = seat.held;
    let block = seat.block;
    check_need(table, need, row)?;
    let size = growth.grown(block.size, need as u32);
    let place = table.place_for(size as u64, row)?;
    let offset = seat.offset();
    copy_bytes(mem, handle.start, place + offset, handle.len);
    let handle = moved_to(handle, place + offset, size - offset);
    let block = Block {
        place,
        size,
        ..block
    };
    table.settle(row, handle.block, block, HandleRow::Writable(handle));
    Ok(Room { slid: 0, handle })
}

// The bytes go to a new block of this size, which the handle then has to itself.
fn move_out<M: Memory>(table: &mut Table, mem: &mut M, seat: Seat, size: u64) -> Result<Room, Fault>
    requires sound { ∥ Sound table.old ∥₁ }
    requires over { block_at table.old seat.held.handle.block ≡ block_row.Live seat.block }
    requires whole { table.old.limit ≤ length (M.bytes mem.old) }
    requires enough { seat.held.handle.len ≤ size }
    ensures does { (result, table.new, M.bytes mem.new) ≡ move_out_of table.old (M.bytes mem.old) seat.held.row seat.held.handle seat.block size }
    ensures faults { M.fault mem.new ≡ M.fault mem.old }
{
    let Held { row, handle } = seat.held;
    let new = table.vacant_block(row)?;
    let place = table.place_for(size, row)?;
    copy_bytes(mem, handle.start, place, handle.len);
    let size = size as u32;
    let handle = WritableHandle {
        kind: WritableKind::Own,
        block: new,
        ..moved_to(handle, place, size)
    };
    let block = Block {
        place,
        size,
        count: 1,
        ..seat.block
    };
    table.detach(row);
    table.settle(row, new, block, HandleRow::Writable(handle));
    Ok(Room { slid: 0, handle })
}

fn widen(table: &mut Table, held: Held, capacity: u32) -> Room
    ensures { (result, table.new) ≡ widen_of table.old held.row held.handle capacity }
{
    let handle = moved_to(held.handle, held.handle.start, capacity);
    table.set_handle(held.row, HandleRow::Writable(handle));
    Room { slid: 0, handle }
}

// The seat of a handle that stands in its row.
fn seat_of(table: &SoundTable, held: Held) -> Seat
    requires { handle_at table.now.rows held.row ≡ handle_row.Writable held.handle }
    ensures held { result.held ≡ held }
    ensures block { block_at table.now.rows held.handle.block ≡ block_row.Live result.block }
{
    let block = table.rows.block(held.handle.block).block();
    Seat { held, block }
}

// Room for so many bytes more behind the handle of a row.
pub fn make_room<M: Memory, G: Growth>(
    table: &mut SoundTable,
    mem: &mut M,
    growth: &G,
    held: Held,
    additional: u64,
) -> Result<Room, Fault>
    requires held { handle_at table.old.rows held.row ≡ handle_row.Writable held.handle }
    requires whole { table.old.rows.limit ≤ length (M.bytes mem.old) }
    ensures does { (result, table.new.rows, M.bytes mem.new) ≡ room_of table.old.rows (M.bytes mem.old) (G.Growth.answer growth.now) held.row held.handle additional }
    ensures faults { M.fault mem.new ≡ M.fault mem.old }
{
    let seat = seat_of(table, held);
    let rows = &mut table.rows;
    match rule_for(held.handle, seat.block, additional) {
        ReserveRule::Keep => Ok(Room {
            slid: 0,
            handle: held.handle,
        }),
        ReserveRule::Slide => Ok(slide(rows, mem, seat)),
        ReserveRule::Grow(need) => grow(rows, mem, growth, seat, need),
        ReserveRule::Widen(capacity) => Ok(widen(rows, held, capacity)),
        ReserveRule::MoveOut(size) => move_out(rows, mem, seat, size),
    }
}

// The bytes that slid, where the block has the room already: the spare bytes, a slide or a wider capacity. No other rule is carried out.
pub fn reclaim_room<M: Memory>(
    table: &mut SoundTable,
    mem: &mut M,
    held: Held,
    additional: u64,
) -> Option<u32>
    requires held { handle_at table.old.rows held.row ≡ handle_row.Writable held.handle }
    requires whole { table.old.rows.limit ≤ length (M.bytes mem.old) }
    ensures does { (result, table.new.rows, M.bytes mem.new) ≡ reclaim_of table.old.rows (M.bytes mem.old) held.row held.handle additional }
    ensures faults { M.fault mem.new ≡ M.fault mem.old }
{
    let seat = seat_of(table, held);
    let rows = &mut table.rows;
    match rule_for(held.handle, seat.block, additional) {
        ReserveRule::Keep => Some(0),
        ReserveRule::Slide => Some(slide(rows, mem, seat).slid),
        ReserveRule::Widen(capacity) => Some(widen(rows, held, capacity).slid),
        ReserveRule::Grow(_) | ReserveRule::MoveOut(_) => None,
    }
}
