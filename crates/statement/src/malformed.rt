ghost use Rattle.std.specs.Prelude.{◌++◌, Some, codes, decimal};

use std::error::Error;
use std::fmt;

// A line that fits no kind.
#[derive(Clone, Copy, PartialEq, Eq, Debug)]
pub struct Malformed {
    // The first index at which no lawful line goes on, or the line's length if it ends early.
    pub at: usize,
}

impl fmt::Display for Malformed {
    ghost output = { λ malformed. Some (codes "wrong at " ++ decimal malformed.at) };

    fn fmt<W: fmt::Write>(&self, f: &mut fmt::Formatter<W>) -> fmt::Result {
        write!(f, "wrong at {}", self.at)
    }
}

impl Error for Malformed {}
