ghost use Rattle.std.specs.Prelude.{◌≡◌, ◌≤◌, length, IfOk, MatchOption, OnOk};
ghost use Rattle.fetching.specs.Fetches.{Fetched, NoEnd, StandsFirst};
ghost use Rattle.fetching.specs.Knowing.{Knows};
ghost use Rattle.law.specs.Views.{view};

use crate::stopped::Stopped;
use ledger::bytes_mut::BytesMut;
use ledger::ledger::Ledger;
use lines::line::LINE_END;
use memory::interface::Memory;
use std::alloc::Global;

// The bytes that the handle shows.
pub fn read_shown<M: Memory>(
    heap: Global,
    ledger: &Ledger,
    mem: &M,
    token: &BytesMut,
) -> Result<Vec<u8>, Stopped>
    ensures answer { IfOk result (λ shown. shown.items ≡ view ledger.now.table.rows (M.bytes mem.now) token.now) }
    ensures reaches { OnOk result (ledger.now.table.rows.limit ≤ length (M.bytes mem.now)) }
{
    let count = token.len(ledger)?;
    let mut shown = vec![in heap; 0; count as usize]?;
    token.read(ledger, mem, 0, shown.as_mut_slice())?;
    Ok(shown)
}

// The index of the first line end.
fn find_end(shown: &[u8]) -> Option<usize>
    ensures { MatchOption result (NoEnd shown.now) (λ end. StandsFirst shown.now end) }
{
    shown.iter().position(|byte| *byte == LINE_END)
}

// The first line that the handle shows, without its end: the handle is advanced past both. None, and nothing is done, where
// no line end is shown.
pub fn next_line<M: Memory>(
    heap: Global,
    ledger: &mut Ledger,
    mem: &M,
    token: &BytesMut,
) -> Result<Option<Vec<u8>>, Stopped>
    ensures fetched { IfOk result (λ line. Fetched (view ledger.old.table.rows (M.bytes mem.now) token.now) line (view ledger.new.table.rows (M.bytes mem.now) token.now)) }
    ensures known { Knows ledger.old.table.rows token.now → Knows ledger.new.table.rows token.now }
{
    let mut shown = read_shown(heap, ledger, mem, token)?;
    match find_end(shown.as_slice()) {
        Some(end) => {
            token.advance(ledger, end as u64 + 1)?;
            shown.truncate(end);
            Ok(Some(shown))
        }
        None => Ok(None),
    }
}
