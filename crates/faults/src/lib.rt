#![tactic(auto)]

ghost use Rattle.faults.specs.Faults.{fault_text, number_of, row_of};
ghost use Rattle.std.specs.Prelude.{◌≡◌, Some};

use memory::fault::MemoryFault;
use std::error::Error;
use std::fmt;

// Why a call was refused, with a row: that of the first token, or of the first unknown one; 64 without a token.
#[derive(Clone, Copy, PartialEq, Eq, Debug)]
pub enum Fault {
    // Opening a second time, or with parts that are too large.
    Opening { row: u8 },
    // Any other call on a ledger that is shut.
    Shut { row: u8 },
    // A token of another ledger, of a free row or of the other type.
    UnknownToken { row: u8 },
    // Two tokens of one row.
    SameRow { row: u8 },
    // The memory does not reach as far as the ledger does.
    Memory { row: u8, fault: MemoryFault },
    // An argument outside its range.
    OutOfRange { row: u8 },
    NoHandleRow { row: u8 },
    NoBlockRow { row: u8 },
    // No place for a block of this size.
    NoPlace { row: u8, size: u64 },
}

impl Fault {
    // The number of the refusal.
    pub fn number(self) -> u8
        ensures { result ≡ number_of self }
    {
        match self {
            Fault::Opening { .. } => 1,
            Fault::Shut { .. } => 2,
            Fault::UnknownToken { .. } => 3,
            Fault::SameRow { .. } => 4,
            Fault::Memory { .. } => 5,
            Fault::OutOfRange { .. } => 6,
            Fault::NoHandleRow { .. } => 7,
            Fault::NoBlockRow { .. } => 8,
            Fault::NoPlace { .. } => 9,
        }
    }

    // The row that it names.
    pub fn row(self) -> u8
        ensures { result ≡ row_of self }
    {
        match self {
            Fault::Opening { row }
            | Fault::Shut { row }
            | Fault::UnknownToken { row }
            | Fault::SameRow { row }
            | Fault::Memory { row, .. }
            | Fault::OutOfRange { row }
            | Fault::NoHandleRow { row }
            | Fault::NoBlockRow { row }
            | Fault::NoPlace { row, .. } => row,
        }
    }
}

impl fmt::Display for Fault {
    ghost output = { λ fault. Some (fault_text fault) };

    fn fmt<W: fmt::Write>(&self, f: &mut fmt::Formatter<W>) -> fmt::Result {
        let number = self.number();
        let row = self.row();
        write!(f, "the ledger refuses with {number}, row {row}")
    }
}

impl Error for Fault {}
