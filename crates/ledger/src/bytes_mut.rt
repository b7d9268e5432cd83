// Writable handles: the calls on BytesMut.
ghost use Rattle.ledger.specs.BytesMut.{advance_call, capacity_call, extend_call, from_call, len_call, pair_check, handle_found, pair_found, read_call, release_call, reserve_call, split_call, split_off_call, split_to_call, token_of, truncate_call, try_reclaim_call, try_unsplit_call, unsplit_call, with_capacity_call, writable_check};
ghost use Rattle.ledger.specs.Reclaims.{ReclaimsExactly};
ghost use Rattle.rows.specs.declared.handle.HandleRow.TheVariants as handle_row;
ghost use Rattle.std.specs.Prelude.{◌≡◌, ◌≢◌, true, IfErr, IfOk};
ghost use Rattle.table.specs.Tables.{handle_at};

use crate::ledger::Ledger;
use faults::Fault;
use growth::Growth;
use memory::interface::Memory;
use rows::handle::{HandleRow, Held};
use splitting::{split, unsplit};
use table::checks::NO_ROW;
use table::table::Table;
use writable::calls;

// The token of a writable handle. Only a ledger makes one, it cannot be copied, and it may be let go only once it is spent.
pub struct BytesMut {
    pub(crate) ledger: u32,
    pub(crate) row: u8,
    pub(crate) spent: bool,
}

impl Drop for BytesMut {
    fn drop(self)
        requires { self.spent ≡ true }
    {
        let BytesMut {
            ledger: _,
            row: _,
            spent: _,
        } = self;
    }
}

// A refusal that gives the token back.
pub struct Refused {
    pub fault: Fault,
    pub token: BytesMut,
}

// The handle of a token and its row, once the ledger is open and knows it.
fn known(table: &Table, token: &BytesMut) -> Result<Held, Fault>
    ensures answer { handle_found result ≡ writable_check table.now token.now }
    ensures row { IfOk result (λ held. held.row ≡ token.now.row) }
    ensures held { IfOk result (λ held. handle_at table.now held.row ≡ handle_row.Writable held.handle) }
{
    let row = token.row;
    table.check_open(row)?;
    match table.handle(row) {
        HandleRow::Writable(handle) if token.ledger == table.number => Ok(Held { row, handle }),
        _ => Err(Fault::UnknownToken { row }),
    }
}

// The handles of two tokens that name different rows, and the second token, which a refusal gives back.
fn known_both(
    table: &Table,
    token: &BytesMut,
    other: BytesMut,
) -> Result<(Held, Held, BytesMut), Refused>
    ensures answer { pair_found result ≡ pair_check table.now token.now other }
    ensures rows { IfOk result (λ pair. (pair.0.row ≡ token.now.row) × (pair.1.row ≡ other.row)) }
    ensures held { IfOk result (λ pair. handle_at table.now pair.0.row ≡ handle_row.Writable pair.0.handle) }
    ensures other_held { IfOk result (λ pair. handle_at table.now pair.1.row ≡ handle_row.Writable pair.1.handle) }
    ensures two { IfOk result (λ pair. pair.0.row ≢ pair.1.row) }
    ensures given { IfOk result (λ pair. pair.2 ≡ other) }
    ensures given_back { IfErr result (λ refused. refused.token ≡ other) }
{
    let fault = match (known(table, token), known(table, &other)) {
        (Ok(first), Ok(second)) if first.row != second.row => return Ok((first, second, other)),
        (Ok(first), Ok(_)) => Fault::SameRow { row: first.row },
        (Err(fault), _) | (_, Err(fault)) => fault,
    };
    Err(Refused {
        fault,
        token: other,
    })
}

impl Ledger {
    // The token of a row.
    fn token(&self, row: u8) -> BytesMut
        ensures { result ≡ token_of self.now.table.rows row }
    {
        BytesMut {
            ledger: self.table.rows.number,
            row,
            spent: false,
        }
    }
}

impl BytesMut {
    // A handle that shows nothing, over a block of its own of this capacity. Refusals 2, 7, 8, 9.
    pub fn with_capacity(ledger: &mut Ledger, capacity: u64) -> Result<BytesMut, Fault>
        ensures { (result, ledger.new.table.rows) ≡ with_capacity_call ledger.old.table.rows capacity }
    {
        ledger.table.rows.check_open(NO_ROW)?;
        let row = calls::with_capacity(&mut ledger.table.rows, capacity)?;
        Ok(ledger.token(row))
    }

    // A handle that shows these bytes, over a block of its own of their length. Refusals 2, 5, 7, 8, 9.
    pub fn from<M: Memory>(
        ledger: &mut Ledger,
        mem: &mut M,
        source: &[u8],
    ) -> Result<BytesMut, Fault>
        ensures does { (result, ledger.new.table.rows, M.bytes mem.new) ≡ from_call ledger.old.table.rows (M.bytes mem.old) (M.fault mem.old) source.now }
        ensures faults { M.fault mem.new ≡ M.fault mem.old }
    {
        ledger.table.rows.check_open(NO_ROW)?;
        let row = calls::from(&mut ledger.table.rows, mem, source)?;
        Ok(ledger.token(row))
    }

    // How many bytes the handle shows. Refusals 2, 3.
    pub fn len(&self, ledger: &Ledger) -> Result<u32, Fault>
        ensures { result ≡ len_call ledger.now.table.rows self.now }
    {
        let held = known(&ledger.table.rows, self)?;
        Ok(held.handle.len)
    }

    // How many bytes the handle holds. Refusals 2, 3.
    pub fn capacity(&self, ledger: &Ledger) -> Result<u32, Fault>
        ensures { result ≡ capacity_call ledger.now.table.rows self.now }
    {
        let held = known(&ledger.table.rows, self)?;
        Ok(held.handle.capacity)
    }

    // Fills the buffer with the bytes that the handle shows, from the index `at` on. Refusals 2, 3, 5, 6.
    pub fn read<M: Memory>(
        &self,
        ledger: &Ledger,
        mem: &M,
        at: u64,
        out: &mut [u8],
    ) -> Result<(), Fault>
        ensures { (result, out.new) ≡ read_call ledger.now.table.rows (M.bytes mem.now) (M.fault mem.now) self.now at out.old }
    {
        let held = known(&ledger.table.rows, self)?;
        calls::read(
            &ledger.table.rows,
            mem,
            held.row,
            held.handle.start,
            held.handle.len,
            at,
            out,
        )
    }

    // Keeps the first `at` bytes that the handle holds, and gives the rest to a new handle. Refusals 2, 3, 6, 7.
    pub fn split_off(&self, ledger: &mut Ledger, at: u64) -> Result<BytesMut, Fault>
        ensures { (result, ledger.new.table.rows) ≡ split_off_call ledger.old.table.rows self.now at }
    {
        let held = known(&ledger.table.rows, self)?;
        let row = split::split_off(&mut ledger.table, held, at)?;
        Ok(ledger.token(row))
    }

    // Gives the first `at` bytes shown to a new handle, and keeps the rest. Refusals 2, 3, 6, 7.
    pub fn split_to(&self, ledger: &mut Ledger, at: u64) -> Result<BytesMut, Fault>
        ensures { (result, ledger.new.table.rows) ≡ split_to_call ledger.old.table.rows self.now at }
    {
        let held = known(&ledger.table.rows, self)?;
        let row = split::split_to(&mut ledger.table, held, at)?;
        Ok(ledger.token(row))
    }

    // Gives all bytes shown to a new handle, and keeps the spare ones. Refusals 2, 3, 7.
    pub fn split(&self, ledger: &mut Ledger) -> Result<BytesMut, Fault>
        ensures { (result, ledger.new.table.rows) ≡ split_call ledger.old.table.rows self.now }
    {
        let held = known(&ledger.table.rows, self)?;
        let row = split::split_to(&mut ledger.table, held, held.handle.len as u64)?;
        Ok(ledger.token(row))
    }

    // Lowers the length to `len` where it is larger. Refusals 2, 3.
    pub fn truncate(&self, ledger: &mut Ledger, len: u64) -> Result<(), Fault>
        ensures { (result, ledger.new.table.rows) ≡ truncate_call ledger.old.table.rows self.now len }
    {
        let held = known(&ledger.table.rows, self)?;
        calls::truncate(&mut ledger.table.rows, held, len);
        Ok(())
    }

    // Drops the first `count` bytes: the start moves, the ends do not. Refusals 2, 3, 6.
    pub fn advance(&self, ledger: &mut Ledger, count: u64) -> Result<(), Fault>
        ensures { (result, ledger.new.table.rows) ≡ advance_call ledger.old.table.rows self.now count }
    {
        let held = known(&ledger.table.rows, self)?;
        calls::advance(&mut ledger.table.rows, held, count)
    }

    // Room for so many bytes more, by the first rule that fits, and the bytes that slid. Refusals 2, 3, 5, 8, 9.
    pub fn reserve<M: Memory, G: Growth>(
        &self,
        ledger: &mut Ledger,
        mem: &mut M,
        growth: &G,
        additional: u64,
    ) -> Result<u32, Fault>
        ensures does { (result, ledger.new.table.rows, M.bytes mem.new) ≡ reserve_call ledger.old.table.rows (M.bytes mem.old) (M.fault mem.old) (G.Growth.answer growth.now) self.now additional }
        ensures faults { M.fault mem.new ≡ M.fault mem.old }
    {
        let held = known(&ledger.table.rows, self)?;
        calls::reserve(&mut ledger.table, mem, growth, held, additional)
    }

    // The same where the handle's own block has the room, and else none. Refusals 2, 3, 5.
    pub fn try_reclaim<M: Memory>(
        &self,
        ledger: &mut Ledger,
        mem: &mut M,
        additional: u64,
    ) -> Result<Option<u32>, Fault>
        ensures does { (result, ledger.new.table.rows, M.bytes mem.new) ≡ try_reclaim_call ledger.old.table.rows (M.bytes mem.old) (M.fault mem.old) self.now additional }
        ensures reclaims_exactly { ReclaimsExactly ledger.old.table.rows self.now additional result }
        ensures faults { M.fault mem.new ≡ M.fault mem.old }
    {
        let held = known(&ledger.table.rows, self)?;
        calls::try_reclaim(&mut ledger.table, mem, held, additional)
    }

    // Reserves the slice's length, writes it behind the bytes shown, and answers the bytes that slid. Refusals 2, 3, 5, 8, 9.
    pub fn extend_from_slice<M: Memory, G: Growth>(
        &self,
        ledger: &mut Ledger,
        mem: &mut M,
        growth: &G,
        source: &[u8],
    ) -> Result<u32, Fault>
        ensures does { (result, ledger.new.table.rows, M.bytes mem.new) ≡ extend_call ledger.old.table.rows (M.bytes mem.old) (M.fault mem.old) (G.Growth.answer growth.now) self.now source.now }
        ensures faults { M.fault mem.new ≡ M.fault mem.old }
    {
        let held = known(&ledger.table.rows, self)?;
        calls::extend_from_slice(&mut ledger.table, mem, growth, held, source)
    }

    // Joins the other handle where it lies behind this one's bytes or holds none; else its token comes back. Refusals 2, 3, 4.
    pub fn try_unsplit(
        &self,
        ledger: &mut Ledger,
        other: BytesMut,
    ) -> Result<Result<(), BytesMut>, Refused>
        ensures { (result, ledger.new.table.rows) ≡ try_unsplit_call ledger.old.table.rows self.now other }
    {
        let (first, second, mut other) = known_both(&ledger.table.rows, self, other)?;
        if unsplit::try_unsplit(&mut ledger.table.rows, first, second) {
            other.spent = true;
            Ok(Ok(()))
        } else {
            Ok(Err(other))
        }
    }

    // Joins the other handle: in place where it can, else by its bytes. Answers the bytes that slid. Refusals 2, 3, 4, 5, 8, 9.
    pub fn unsplit<M: Memory, G: Growth>(
        &self,
        ledger: &mut Ledger,
        mem: &mut M,
        growth: &G,
        other: BytesMut,
    ) -> Result<u32, Refused>
        ensures does { (result, ledger.new.table.rows, M.bytes mem.new) ≡ unsplit_call ledger.old.table.rows (M.bytes mem.old) (M.fault mem.old) (G.Growth.answer growth.now) self.now other }
        ensures faults { M.fault mem.new ≡ M.fault mem.old }
    {
        let (first, second, mut other) = known_both(&ledger.table.rows, self, other)?;
        match unsplit::unsplit(&mut ledger.table, mem, growth, first, second) {
            Ok(slid) => {
                other.spent = true;
                Ok(slid)
            }
            Err(fault) => Err(Refused {
                fault,
                token: other,
            }),
        }
    }

    // Ends the handle and spends the token, or gives the token back. Refusals 2, 3.
    pub fn release(mut self, ledger: &mut Ledger) -> Result<(), Refused>
        ensures { (result, ledger.new.table.rows) ≡ release_call ledger.old.table.rows self }
    {
        match known(&ledger.table.rows, &self) {
            Ok(held) => {
                ledger.table.rows.detach(held.row);
                self.spent = true;
                Ok(())
            }
            Err(fault) => Err(Refused { fault, token: self }),
        }
    }
}
