// Pairs the payments of a bank statement, read from standard input, with the open invoices of a file, and prints the log.
#![tactic(auto)]

mod holdings;

ghost use Rattle.fetching.specs.Knowing.{Knows};
ghost use Rattle.std.specs.Prelude.{IfOk};

use crate::holdings::Holdings;
use anyhow::{Context, anyhow};
use fetching::reconciling::{Reconciliation, reconcile};
use fetching::stopped::Stopped;
use growth::Doubling;
use ledger::bytes_mut::BytesMut;
use ledger::ledger::Ledger;
use memory::slice::SliceMemory;
use memory::window::Window;
use showing::shown::Shown;
use std::alloc::{AllocError, Global};
use std::io::Read;
use std::{env, fs};
use table::tally::Tally;

// How many positions the ledger works on.
const ARENA: u32 = 65_536;

// The capacity that the statement's handle begins with.
const CAPACITY: u64 = 64;

// Apart from its caller, whose proof would otherwise write out each of the bytes.
fn zeros(heap: Global) -> Result<Vec<u8>, AllocError> {
    Ok(vec![in heap; 0; ARENA as usize]?)
}

// A handle that shows nothing, of a ledger that is opened for it.
fn open_handle(ledger: &mut Ledger) -> Result<BytesMut, Stopped>
    ensures { IfOk result (λ token. Knows ledger.new.table.rows token) }
{
    ledger.open(1, 0, ARENA as u64)?;
    Ok(BytesMut::with_capacity(ledger, CAPACITY)?)
}

// What came of the statement as it passed through the handle of a ledger, and what the ledger held then. The ledger knows the
// handle's token to the end, so the handle is released whatever came of the statement.
fn reconcile_by_ledger(
    heap: Global,
    statement: &[u8],
    invoices: &mut [u8],
) -> anyhow::Result<(Reconciliation, Tally)> {
    let mut arena = zeros(heap)?;
    let mut mem = Window::new(SliceMemory::new(arena.as_mut_slice()), 0, ARENA);
    let open_items = SliceMemory::new(invoices);
    let growth = Doubling::default();
    let mut ledger = Ledger::new();
    let token = open_handle(&mut ledger).map_err(|stopped| anyhow!("no handle: {stopped}"))?;
    let done = reconcile(
        heap,
        &mut ledger,
        &mut mem,
        &growth,
        &token,
        statement,
        &open_items,
    );
    let tally = ledger.tally();
    token.release(&mut ledger).unwrap();
    Ok((done?, tally.map_err(Stopped::from)?))
}

fn main(rt: HostRuntime) -> anyhow::Result<()> {
    let heap = rt.alloc();
    let path = env::args(&rt)?
        .nth(1)
        .context("usage: reconcile INVOICES < STATEMENT")?;
    let mut invoices = fs::read(&rt, path.as_str())?;
    let mut statement = Vec::new(heap);
    rt.stdin().read_to_end(&mut statement)?;
    let (Reconciliation { report, slid }, tally) = reconcile_by_ledger(
        heap,
        statement.as_slice(),
        invoices.as_mut_slice(),
    )?;
    let shown = Shown {
        statement: statement.as_slice(),
        invoices: invoices.as_slice(),
        report: &report,
    };
    let holdings = Holdings { slid, tally };
    print!(rt; "{shown}{holdings}")?;
    Ok(())
}
