// A new ledger, opening it, and what it holds.
ghost use Rattle.ledger.specs.Opening.{open_call, tally_call};
ghost use Rattle.table.specs.Tables.{new_table};
ghost use Rattle.std.specs.Prelude.{◌≡◌};

use crate::ledger::Ledger;
use faults::Fault;
use rows::block::BlockRow;
use rows::handle::HandleRow;
use table::checks::NO_ROW;
use table::sound::SoundTable;
use table::table::Table;
use table::tally::Tally;

// The most positions that a ledger works on.
const MOST: u64 = 16_777_216;

impl Ledger {
    // A ledger that is shut, with every row free.
    pub fn new() -> Ledger
        ensures { result.table.rows ≡ new_table }
    {
        let rows = Table {
            number: 0,
            opened: false,
            fixed: 0,
            limit: 0,
            handles: [HandleRow::Free; 64],
            blocks: [BlockRow::Free; 32],
        };
        Ledger {
            table: SoundTable { rows },
        }
    }

    // Opens the ledger: positions below `fixed` are the fixed part, and from there up to `limit` the working part.
    // Refused, with 1, a second time, with a fixed part over the limit, or with a limit over 16,777,216.
    pub fn open(&mut self, number: u32, fixed: u64, limit: u64) -> Result<(), Fault>
        ensures { (result, self.new.table.rows) ≡ open_call self.old.table.rows number fixed limit }
    {
        if self.table.rows.opened || fixed > limit || limit > MOST {
            return Err(Fault::Opening { row: NO_ROW });
        }
        self.table.rows.open(number, fixed as u32, limit as u32);
        Ok(())
    }

    // The live handles, the live blocks and the bytes in blocks. Refused with 2.
    pub fn tally(&self) -> Result<Tally, Fault>
        ensures { result ≡ tally_call self.now.table.rows }
    {
        self.table.rows.check_open(NO_ROW)?;
        Ok(self.table.rows.tally())
    }
}
