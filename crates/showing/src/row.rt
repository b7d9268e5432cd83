use crate::cents::Cents;
use crate::quoted::Quoted;
use lines::span::Span;
use matching::totals::Total;
use statement::malformed::Malformed;
use statement::record::{Record, Worded, part_of};
use std::fmt;
use std::fmt::{Display, Formatter};

// A line that was logged: what it says, or where it goes wrong.
#[derive(Clone, Copy)]
pub(crate) struct LoggedLine<'a> {
    pub number: usize,
    pub span: Span,
    pub text: &'a [u8],
    pub said: Result<Record, Malformed>,
}

impl LoggedLine<'_> {
    fn write_worded<W: fmt::Write>(
        &self,
        f: &mut Formatter<W>,
        kind: &str,
        worded: Worded,
    ) -> fmt::Result {
        let amount = Cents(worded.amount as i128);
        let words = Quoted(part_of(self.text, worded.text));
        write!(f, "{kind:<9}  {amount}  {words}")
    }
}

impl Display for LoggedLine<'_> {
    fn fmt<W: fmt::Write>(&self, f: &mut Formatter<W>) -> fmt::Result {
        let number = self.number;
        let Span { start, length } = self.span;
        write!(f, "{number:>5}  {start:>8}  {length:>6}  ")?;
        match self.said {
            Ok(Record::Balance(cents)) => {
                let amount = Cents(cents as i128);
                write!(f, "balance    {amount}")
            }
            Ok(Record::Payment(worded)) => self.write_worded(f, "payment", worded),
            Ok(Record::Charge(worded)) => self.write_worded(f, "charge", worded),
            Ok(Record::Return(worded)) => self.write_worded(f, "return", worded),
            Err(Malformed { at }) => {
                let text = Quoted(self.text);
                write!(f, "unreadable, wrong at {at:>2}  {text}")
            }
        }
    }
}

// What an invoice asks for, and from whom.
#[derive(Clone, Copy)]
pub(crate) struct Asked<'a> {
    pub number: usize,
    pub amount: Cents,
    pub payee: Quoted<'a>,
}

impl Display for Asked<'_> {
    fn fmt<W: fmt::Write>(&self, f: &mut Formatter<W>) -> fmt::Result {
        let Asked {
            number,
            amount,
            payee,
        } = *self;
        write!(f, "{number:>7}  {amount}  {payee}")
    }
}

// A line that is paired with an invoice.
#[derive(Clone, Copy)]
pub(crate) struct Pair<'a> {
    pub line: usize,
    pub invoice: Asked<'a>,
}

impl Display for Pair<'_> {
    fn fmt<W: fmt::Write>(&self, f: &mut Formatter<W>) -> fmt::Result {
        let Pair { line, invoice } = *self;
        write!(f, "{line:>5}  {invoice}")
    }
}

// An invoice that no line settles, or where it goes wrong.
#[derive(Clone, Copy)]
pub(crate) enum Unsettled<'a> {
    Open(Asked<'a>),
    Unreadable(usize, Malformed),
}

impl Display for Unsettled<'_> {
    fn fmt<W: fmt::Write>(&self, f: &mut Formatter<W>) -> fmt::Result {
        match *self {
            Unsettled::Open(invoice) => invoice.fmt(f),
            Unsettled::Unreadable(number, malformed) => {
                write!(f, "{number:>7}  unreadable, {malformed}")
            }
        }
    }
}

// How many lines there are, and their amounts.
#[derive(Clone, Copy)]
pub(crate) struct Sum(pub Total);

impl Display for Sum {
    fn fmt<W: fmt::Write>(&self, f: &mut Formatter<W>) -> fmt::Result {
        let lines = self.0.lines;
        let amount = Cents(self.0.cents);
        write!(f, "{lines:>6}  {amount}")
    }
}
