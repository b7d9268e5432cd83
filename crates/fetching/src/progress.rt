ghost use Rattle.std.specs.Prelude.{◌≡◌, ℕ, ◌+◌, ◌<◌, List, [], ◌∷◌, ◌++◌, length, IfOk, OnOk};
ghost use Rattle.fetching.specs.Fetches.{NoEnd};
ghost use Rattle.fetching.specs.Passages.{Carries, Entered, Underway};
ghost use Rattle.lines.specs.Lines.{line, line_end};
ghost use Rattle.matching.specs.Pairings.{entries_of, settled_invoices};

use crate::stopped::Stopped;
use lines::line::Line;
use matching::entry::{Entry, Report};
use matching::invoice::OpenItems;
use memory::interface::Memory;
use std::alloc::{AllocError, Global};

// How far a statement has come that is reconciled line by line.
#[derive(Drop)]
pub struct Progress<'a, I> {
    // What became of the lines so far.
    pub entries: Vec<Entry>,
    // How the invoices stand then.
    pub open_items: OpenItems<'a, I>,
    // Where the next line begins.
    pub position: u32,
}

// A line of this length that begins at a position, if there is a position behind its end.
fn line_at(position: u32, length: usize, ended: bool) -> Result<Line, Stopped>
    ensures answer { IfOk result (λ found. found ≡ line position (position + length) ended) }
    ensures fits { OnOk result (position + length < 4294967295) }
{
    let room = u32::MAX - position;
    if length >= room as usize {
        return Err(Stopped::TooLong);
    }
    Ok(Line::between(position, position + length as u32, ended))
}

impl<'a, I: Memory> Progress<'a, I> {
    // No line is passed yet.
    pub fn new(heap: Global, open_items: &'a I) -> Result<Progress<'a, I>, AllocError>
        ensures memory { IfOk result (λ progress. progress.open_items.mem.now ≡ open_items.now) }
        ensures begun { IfOk result (λ progress. ((xs : List ℕ) → Underway xs (I.bytes open_items.now) progress xs)) }
    {
        let open_items = OpenItems::read(heap, open_items)?;
        Ok(Progress {
            entries: Vec::new(heap),
            open_items,
            position: 0,
        })
    }

    // Enters what becomes of the next line, which has this text.
    fn enter(&mut self, line: Line, text: &[u8]) -> Result<(), Stopped>
        ensures memory { self.new.open_items.mem.now ≡ self.old.open_items.mem.now }
        ensures entered { OnOk result (Entered (I.bytes self.old.open_items.mem.now) self.old line text.now self.new) }
    {
        let index = self.entries.len();
        let outcome = self.open_items.judge(index, line, text);
        self.entries.push(Entry { line, outcome })?;
        Ok(())
    }

    // Passes the next line, which has this text and an end.
    pub fn pass(&mut self, text: &[u8]) -> Result<(), Stopped>
        ensures memory { self.new.open_items.mem.now ≡ self.old.open_items.mem.now }
        ensures passed { OnOk result ((NoEnd text.now → Carries (I.bytes self.old.open_items.mem.now) self.old (text.now ++ line_end ∷ []) self.new [])) }
    {
        let line = line_at(self.position, text.len(), true)?;
        self.enter(line, text)?;
        self.position = line.span.start + line.span.length + 1;
        Ok(())
    }

    // The report, where these bytes without an end are all that is left.
    pub fn close(mut self, text: &[u8]) -> Result<Report, Stopped>
        ensures { IfOk result (λ report. ((xs : List ℕ) → NoEnd text.now → Underway xs (I.bytes self.entry.open_items.mem.now) self.entry text.now → (report.entries.items ≡ entries_of xs (I.bytes self.entry.open_items.mem.now)) × (report.invoices.items ≡ settled_invoices xs (I.bytes self.entry.open_items.mem.now)))) }
    {
        if !text.is_empty() {
            let line = line_at(self.position, text.len(), false)?;
            self.enter(line, text)?;
        }
        Ok(Report {
            entries: self.entries,
            invoices: self.open_items.invoices,
        })
    }
}
