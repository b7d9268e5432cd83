// Pairs the payments of a bank statement, read from standard input, with the open invoices of a file, and prints the log.
#![tactic(auto)]

use anyhow::Context;
use matching::pairing::reconcile;
use memory::slice::SliceMemory;
use memory::window::Window;
use showing::shown::Shown;
use std::io::Read;
use std::{env, fs};

fn main(rt: HostRuntime) -> anyhow::Result<()> {
    let heap = rt.alloc();
    let path = env::args(&rt)?
        .nth(1)
        .context("usage: reconcile INVOICES < STATEMENT")?;
    let mut invoices = fs::read(&rt, path.as_str())?;
    let mut statement = Vec::new(heap);
    rt.stdin().read_to_end(&mut statement)?;
    let window = Window::new(SliceMemory::new(statement.as_mut_slice()), 0, u32::MAX);
    let open_items = SliceMemory::new(invoices.as_mut_slice());
    let report = reconcile(heap, &window, &open_items)?;
    let shown = Shown {
        statement: statement.as_slice(),
        invoices: invoices.as_slice(),
        report: &report,
    };
    print!(rt; "{shown}")?;
    Ok(())
}
