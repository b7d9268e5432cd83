ghost use Rattle.std.specs.Prelude.{◌≡◌, ℕ, ◌<◌, length, position, IfSome, IfOk};
ghost use Rattle.matching.specs.Pairings.{asks_for, entries_of, judged, pairing, settled_invoices};
ghost use Rattle.matching.specs.Reconciliation.{Reconciled};

use crate::entry::{Entry, Outcome, Report};
use crate::invoice::{Invoice, OpenItems, if_ended};
use lines::line::{Line, find_lines};
use memory::interface::Memory;
use statement::record::{Record, Worded, parse_record, part_of};
use std::alloc::{AllocError, Global};

// Whether an invoice is open and asks for the payment's amount from this payee.
fn asks<M: Memory>(invoice: Invoice, mem: &M, payment: Worded, payee: &[u8]) -> bool
    ensures { result ≡ asks_for (M.bytes mem.now) payment.amount payee.now invoice }
{
    match invoice {
        Invoice::Open(claim) => claim.amount == payment.amount && claim.payee.holds(mem, payee),
        Invoice::Settled(..) | Invoice::Unlawful(_) => false,
    }
}

// The index of the first open invoice that asks for a payment from this payee.
fn find_open<M: Memory>(
    invoices: &[Invoice],
    mem: &M,
    payment: Worded,
    payee: &[u8],
) -> Option<usize>
    ensures value { result ≡ position (asks_for (M.bytes mem.now) payment.amount payee.now) invoices.now }
    ensures inside { IfSome result (λ index. index < length invoices.now) }
{
    invoices
        .iter()
        .position(|invoice| asks(*invoice, mem, payment, payee))
}

// Pairs a payment with its invoice, which is then settled, or leaves it unmatched.
fn pair<M: Memory>(
    invoices: &mut Vec<Invoice>,
    mem: &M,
    line: usize,
    payment: Worded,
    payee: &[u8],
) -> Outcome
    ensures { (result, invoices.new.items) ≡ pairing line payment invoices.old.items (position (asks_for (M.bytes mem.now) payment.amount payee.now) invoices.old.items) }
{
    match find_open(invoices.as_slice(), mem, payment, payee) {
        Some(index) => {
            invoices[index] = invoices[index].settled(line);
            Outcome::Paired(payment, index)
        }
        None => Outcome::Unmatched(Record::Payment(payment)),
    }
}

// What becomes of the statement line of an index, with this text, where these are the invoices of a memory.
pub fn judge<M: Memory>(
    index: usize,
    line: Line,
    text: &[u8],
    invoices: &mut Vec<Invoice>,
    mem: &M,
) -> Outcome
    ensures { (result, invoices.new.items) ≡ judged (M.bytes mem.now) index line text.now invoices.old.items }
{
    match if_ended(line, text, parse_record(text)) {
        Ok(Record::Payment(payment)) => {
            let payee = part_of(text, payment.text);
            pair(invoices, mem, index, payment, payee)
        }
        Ok(said) => Outcome::Unmatched(said),
        Err(malformed) => Outcome::Unreadable(malformed),
    }
}

impl<'a, M: Memory> OpenItems<'a, M> {
    // What becomes of the statement line of an index, with this text.
    pub fn judge(&mut self, index: usize, line: Line, text: &[u8]) -> Outcome
        ensures memory { self.new.mem.now ≡ self.old.mem.now }
        ensures judged { (result, self.new.invoices.items) ≡ judged (M.bytes self.old.mem.now) index line text.now self.old.invoices.items }
    {
        judge(index, line, text, &mut self.invoices, self.mem)
    }
}

// Pairs the payments of a statement with the open invoices, line by line: each with the first open invoice of equal
// amount and payee. Every other line is logged.
pub fn reconcile<S: Memory, I: Memory>(
    heap: Global,
    statement: &S,
    open_items: &I,
) -> Result<Report, AllocError>
    ensures entries { IfOk result (λ report. report.entries.items ≡ entries_of (S.bytes statement.now) (I.bytes open_items.now)) }
    ensures invoices { IfOk result (λ report. report.invoices.items ≡ settled_invoices (S.bytes statement.now) (I.bytes open_items.now)) }
    ensures law { IfOk result (λ report. Reconciled (S.bytes statement.now) (I.bytes open_items.now) report.entries.items report.invoices.items) }
{
    let mut items = OpenItems::read(heap, open_items)?;
    let mut entries = Vec::new(heap);
    let lines = find_lines(heap, statement)?;
    for (index, line) in lines.iter().enumerate() {
        let text = line.span.read(heap, statement)?;
        let outcome = items.judge(index, *line, text.as_slice());
        entries.push(Entry {
            line: *line,
            outcome,
        })?;
    }
    Ok(Report {
        entries,
        invoices: items.invoices,
    })
}
