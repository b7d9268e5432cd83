ghost use Rattle.fetching.specs.declared.stopped.Stopped.TheVariants.{OutOfMemory, Refused};
ghost use Rattle.std.specs.Prelude.{◌≡◌};

use faults::Fault;
use std::alloc::{AllocError, AllocFailed};
use std::error::Error;
use std::fmt;
use std::fmt::{Display, Formatter};

// Why no more lines are fetched.
#[derive(Clone, Copy, PartialEq, Eq, Debug)]
pub enum Stopped {
    // A call on the ledger was refused.
    Refused(Fault),
    // The heap has no room for the lines.
    OutOfMemory,
    // A line that ends behind the last position of 32 bits.
    TooLong,
}

impl From<Fault> for Stopped {
    ghost from_gives = { λ fault r. r ≡ Refused fault };

    fn from(fault: Fault) -> Stopped {
        Stopped::Refused(fault)
    }
}

impl From<AllocError> for Stopped {
    ghost from_gives = { λ _ r. r ≡ OutOfMemory };

    fn from(_error: AllocError) -> Stopped {
        Stopped::OutOfMemory
    }
}

impl<T: Drop> From<AllocFailed<T>> for Stopped {
    ghost from_gives = { λ _ r. r ≡ OutOfMemory };

    fn from(_error: AllocFailed<T>) -> Stopped {
        Stopped::OutOfMemory
    }
}

impl Display for Stopped {
    fn fmt<W: fmt::Write>(&self, f: &mut Formatter<W>) -> fmt::Result {
        match self {
            Stopped::Refused(fault) => fault.fmt(f),
            Stopped::OutOfMemory => f.write_str("out of memory"),
            Stopped::TooLong => f.write_str("the statement is too long"),
        }
    }
}

impl Error for Stopped {}
