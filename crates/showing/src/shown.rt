ghost use Rattle.lines.specs.Spans.{span_bytes};
ghost use Rattle.std.specs.Iterator.{IsFinite};
ghost use Rattle.std.specs.Prelude.{◌≡◌};

use crate::cents::Cents;
use crate::quoted::Quoted;
use crate::row::{Asked, LoggedLine, Pair, Sum, Unsettled};
use lines::span::Span;
use matching::entry::{Entry, Outcome, Report};
use matching::invoice::{Claim, Invoice};
use matching::totals::add_up;
use statement::record::{Part, part_of};
use std::fmt;
use std::fmt::{Display, Formatter};

// What became of a statement, with the texts that the report speaks of.
#[derive(Clone, Copy)]
pub struct Shown<'a> {
    pub statement: &'a [u8],
    pub invoices: &'a [u8],
    pub report: &'a Report,
}

// The bytes of a span of a text.
fn text_of(text: &[u8], span: Span) -> &[u8]
    ensures { result.now ≡ span_bytes text.now span }
{
    let start = span.start as usize;
    let length = span.length as usize;
    part_of(text, Part { start, length })
}

// The rows: lines and invoices have numbers from 1 on.
impl<'a> Shown<'a> {
    fn logged(&self, number: usize, entry: &Entry) -> Option<LoggedLine<'a>> {
        let said = match entry.outcome {
            Outcome::Paired(_, _) => return None,
            Outcome::Unmatched(record) => Ok(record),
            Outcome::Unreadable(malformed) => Err(malformed),
        };
        let span = entry.line.span;
        let text = text_of(self.statement, span);
        Some(LoggedLine {
            number,
            span,
            text,
            said,
        })
    }

    fn asked(&self, number: usize, claim: &Claim) -> Asked<'a> {
        let amount = Cents(claim.amount as i128);
        let payee = Quoted(text_of(self.invoices, claim.payee));
        Asked {
            number,
            amount,
            payee,
        }
    }

    fn pair(&self, line: usize, entry: &Entry) -> Option<Pair<'a>> {
        let Outcome::Paired(_, index) = entry.outcome else {
            return None;
        };
        let Some(Invoice::Settled(claim, _)) = self.report.invoices.get(index) else {
            return None;
        };
        let invoice = self.asked(index + 1, claim);
        Some(Pair { line, invoice })
    }

    fn unsettled(&self, number: usize, invoice: &Invoice) -> Option<Unsettled<'a>> {
        match invoice {
            Invoice::Open(claim) => Some(Unsettled::Open(self.asked(number, claim))),
            Invoice::Settled(_, _) => None,
            Invoice::Unlawful(malformed) => Some(Unsettled::Unreadable(number, *malformed)),
        }
    }
}

// A heading, and a row a line.
fn write_rows<W: fmt::Write, R: Display + Drop, I: Iterator<Item = R> + Drop>(
    f: &mut Formatter<W>,
    heading: &str,
    rows: I,
) -> fmt::Result
    requires can { I.can_next rows }
    requires ends { IsFinite (I.remaining rows) }
{
    f.write_str(heading)?;
    for row in rows {
        writeln!(f, "{row}")?;
    }
    Ok(())
}

// The parts.
impl Shown<'_> {
    fn write_log<W: fmt::Write>(&self, f: &mut Formatter<W>) -> fmt::Result {
        let heading = "\nLogged\n line  position  length  kind             amount  text\n";
        let entries = (1..).zip(&self.report.entries);
        let rows = entries.filter_map(|(number, entry)| self.logged(number, entry));
        write_rows(f, heading, rows)
    }

    fn write_pairs<W: fmt::Write>(&self, f: &mut Formatter<W>) -> fmt::Result {
        let heading = "\nPaired\n line  invoice        amount  payee\n";
        let entries = (1..).zip(&self.report.entries);
        let rows = entries.filter_map(|(number, entry)| self.pair(number, entry));
        write_rows(f, heading, rows)
    }

    fn write_totals<W: fmt::Write>(&self, f: &mut Formatter<W>) -> fmt::Result {
        let sums = add_up(self.report.entries.as_slice());
        let paired = Sum(sums.paired);
        let unmatched = Sum(sums.unmatched);
        let balances = sums.balances;
        let unreadable = sums.unreadable;
        f.write_str("\nTotals       lines        amount\n")?;
        writeln!(f, "paired      {paired}")?;
        writeln!(f, "unmatched   {unmatched}")?;
        writeln!(f, "balances    {balances:>6}")?;
        writeln!(f, "unreadable  {unreadable:>6}")
    }

    fn write_unsettled<W: fmt::Write>(&self, f: &mut Formatter<W>) -> fmt::Result {
        let heading = "\nStill open\ninvoice        amount  payee\n";
        let invoices = (1..).zip(&self.report.invoices);
        let rows = invoices.filter_map(|(number, invoice)| self.unsettled(number, invoice));
        write_rows(f, heading, rows)
    }
}

// The log of what stayed unmatched, the pairs, the totals and what is still open.
impl Display for Shown<'_> {
    fn fmt<W: fmt::Write>(&self, f: &mut Formatter<W>) -> fmt::Result {
        let lines = self.report.entries.len();
        let invoices = self.report.invoices.len();
        writeln!(f, "Statement of {lines} lines, {invoices} invoices")?;
        self.write_log(f)?;
        self.write_pairs(f)?;
        self.write_totals(f)?;
        self.write_unsettled(f)
    }
}
