ghost use Rattle.showing.specs.Texts.{amount};
ghost use Rattle.std.specs.Prelude.{Some};

use std::fmt;
use std::fmt::{Display, Formatter};

// An amount with two decimals, at least twelve characters wide.
#[derive(Clone, Copy)]
pub struct Cents(pub i128);

impl Display for Cents {
    ghost output = { λ c. Some (amount c.0) };

    fn fmt<W: fmt::Write>(&self, f: &mut Formatter<W>) -> fmt::Result {
        let whole = self.0 / 100;
        let rest = self.0.unsigned_abs() % 100;
        if self.0 < 0 && whole == 0 {
            write!(f, "{:>9}.{rest:02}", "-0")
        } else {
            write!(f, "{whole:>9}.{rest:02}")
        }
    }
}
