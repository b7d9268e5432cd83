ghost use Rattle.std.specs.Prelude.{◌≡◌, ℕ, ◌+◌, ◌<◌};
ghost use Rattle.matching.specs.Totals.{Few, Within, added, plus, totals_of};

use crate::entry::{Entry, Outcome};
use statement::record::Record;

// How many lines there are of a kind, and the sum of their amounts.
#[derive(Clone, Copy, PartialEq, Eq, Debug, Default)]
pub struct Total {
    pub lines: u64,
    pub cents: i128,
}

// What the lines of a statement come to.
#[derive(Clone, Copy, PartialEq, Eq, Debug, Default)]
pub struct Totals {
    pub paired: Total,
    // Payments, charges and returns that were logged.
    pub unmatched: Total,
    pub balances: u64,
    pub unreadable: u64,
}

impl Total {
    // One line more.
    fn plus(self, cents: i64) -> Total
        requires few { self.lines < 18446744073709551615 }
        requires within { Within self }
        ensures value { result ≡ plus self cents }
        ensures within { Within result }
    {
        Total {
            lines: self.lines + 1,
            cents: self.cents + cents as i128,
        }
    }
}

impl Totals {
    // One line more, of which this became.
    fn added(self, outcome: Outcome) -> Totals
        requires few { Few 18446744073709551614 self }
        ensures value { result ≡ added self outcome }
        ensures few { (n : ℕ) → Few n self → Few (n + 1) result }
    {
        match outcome {
            Outcome::Paired(payment, _) => Totals {
                paired: self.paired.plus(payment.amount),
                ..self
            },
            Outcome::Unmatched(Record::Balance(_)) => Totals {
                balances: self.balances + 1,
                ..self
            },
            Outcome::Unmatched(
                Record::Payment(worded) | Record::Charge(worded) | Record::Return(worded),
            ) => Totals {
                unmatched: self.unmatched.plus(worded.amount),
                ..self
            },
            Outcome::Unreadable(_) => Totals {
                unreadable: self.unreadable + 1,
                ..self
            },
        }
    }
}

// What all lines come to.
pub fn add_up(entries: &[Entry]) -> Totals
    ensures { result ≡ totals_of entries.now }
{
    let mut totals = Totals::default();
    for entry in entries {
        totals = totals.added(entry.outcome);
    }
    totals
}
