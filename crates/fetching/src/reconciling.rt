ghost use Rattle.fetching.specs.Fetches.{NoEnd};
ghost use Rattle.fetching.specs.Knowing.{Knows};
ghost use Rattle.fetching.specs.Passages.{Carries};
ghost use Rattle.matching.specs.Pairings.{entries_of, settled_invoices};
ghost use Rattle.matching.specs.Reconciliation.{Reconciled};
ghost use Rattle.law.specs.Views.{view};
ghost use Rattle.std.specs.Prelude.{◌≡◌, ◌++◌, IfOk, OnOk};

use crate::fetch::{next_line, read_shown};
use crate::progress::Progress;
use crate::stopped::Stopped;
use growth::Growth;
use ledger::bytes_mut::BytesMut;
use ledger::ledger::Ledger;
use matching::entry::Report;
use memory::interface::Memory;
use std::alloc::Global;

// How many bytes the handle is extended by at a time.
const CHUNK: usize = 64;

// What became of a statement, and the bytes that slid as it passed through its handle.
#[derive(Drop)]
pub struct Reconciliation {
    pub report: Report,
    pub slid: u64,
}

// Fetches every whole line that the handle shows, and passes it.
fn pass_lines<M: Memory, I: Memory>(
    heap: Global,
    ledger: &mut Ledger,
    mem: &M,
    token: &BytesMut,
    progress: &mut Progress<I>,
) -> Result<(), Stopped>
    ensures fetched { OnOk result (NoEnd (view ledger.new.table.rows (M.bytes mem.now) token.now)) }
    ensures memory { progress.new.open_items.mem.now ≡ progress.old.open_items.mem.now }
    ensures passed { OnOk result (Carries (I.bytes progress.old.open_items.mem.now) progress.old (view ledger.old.table.rows (M.bytes mem.now) token.now) progress.new (view ledger.new.table.rows (M.bytes mem.now) token.now)) }
    ensures known { Knows ledger.old.table.rows token.now → Knows ledger.new.table.rows token.now }
{
    while let Some(text) = next_line(heap, ledger, mem, token)? {
        progress.pass(text.as_slice())?;
    }
    Ok(())
}

// Pairs the payments of a statement with the open invoices, line by line: each with the first open invoice of equal
// amount and payee. Every other line is logged. The statement is what the handle shows and then the source, which passes
// through the handle: it is extended chunk by chunk, and advanced past each line. Bytes behind the last line end stay.
// A token that the ledger knew is still known, whatever stops the lines.
pub fn reconcile<M: Memory, G: Growth, I: Memory>(
    heap: Global,
    ledger: &mut Ledger,
    mem: &mut M,
    growth: &G,
    token: &BytesMut,
    source: &[u8],
    open_items: &I,
) -> Result<Reconciliation, Stopped>
    ensures entries { IfOk result (λ done. done.report.entries.items ≡ entries_of (view ledger.old.table.rows (M.bytes mem.old) token.now ++ source.now) (I.bytes open_items.now)) }
    ensures invoices { IfOk result (λ done. done.report.invoices.items ≡ settled_invoices (view ledger.old.table.rows (M.bytes mem.old) token.now ++ source.now) (I.bytes open_items.now)) }
    ensures law { IfOk result (λ done. Reconciled (view ledger.old.table.rows (M.bytes mem.old) token.now ++ source.now) (I.bytes open_items.now) done.report.entries.items done.report.invoices.items) }
    ensures known { Knows ledger.old.table.rows token.now → Knows ledger.new.table.rows token.now }
{
    let mut progress = Progress::new(heap, open_items)?;
    let mut slid: u64 = 0;
    pass_lines(heap, ledger, mem, token, &mut progress)?;
    for chunk in source.chunks(CHUNK) {
        let moved = token.extend_from_slice(ledger, mem, growth, chunk)?;
        slid = slid.saturating_add(moved as u64);
        pass_lines(heap, ledger, mem, token, &mut progress)?;
    }
    let left = read_shown(heap, ledger, mem, token)?;
    let report = progress.close(left.as_slice())?;
    Ok(Reconciliation { report, slid })
}
