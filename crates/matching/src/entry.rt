use crate::invoice::Invoice;
use lines::line::Line;
use statement::malformed::Malformed;
use statement::record::{Record, Worded};

// What became of a line of the statement: paired with an invoice, or logged.
#[derive(Clone, Copy, PartialEq, Eq, Debug)]
pub enum Outcome {
    // A payment, with the index of its invoice.
    Paired(Worded, usize),
    // A line of a known kind that no invoice was paired with.
    Unmatched(Record),
    Unreadable(Malformed),
}

// A line of the statement with what became of it.
#[derive(Clone, Copy, PartialEq, Eq, Debug)]
pub struct Entry {
    pub line: Line,
    pub outcome: Outcome,
}

// What became of every line of the statement, and how the invoices stand then.
#[derive(Drop, Debug)]
pub struct Report {
    pub entries: Vec<Entry>,
    pub invoices: Vec<Invoice>,
}
