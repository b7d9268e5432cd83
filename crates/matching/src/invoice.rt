ghost use Rattle.std.specs.Prelude.{◌≡◌, ◌+◌, ◌^◌, ◌<◌, ◌≤◌, length, IfOk};
ghost use Rattle.matching.specs.Invoices.{invoice_of, invoices_of, settled_by};
ghost use Rattle.statement.specs.Records.{if_ended};

use lines::line::{Line, find_lines};
use lines::span::Span;
use memory::interface::Memory;
use statement::malformed::Malformed;
use statement::record::{check_ended, parse_worded};
use std::alloc::{AllocError, Global};

// What an invoice asks for, and from whom.
#[derive(Clone, Copy, PartialEq, Eq, Debug)]
pub struct Claim {
    pub amount: i64,
    // Where the payee's name stands in the memory of the invoices.
    pub payee: Span,
}

// A line of the invoices.
#[derive(Clone, Copy, PartialEq, Eq, Debug)]
pub enum Invoice {
    Open(Claim),
    // Paired with the statement line of this index.
    Settled(Claim, usize),
    Unlawful(Malformed),
}

impl Invoice {
    // An open invoice, settled by the statement line of this index; any other stays as it is.
    pub fn settled(self, line: usize) -> Invoice
        ensures { result ≡ settled_by line self }
    {
        match self {
            Invoice::Open(claim) => Invoice::Settled(claim, line),
            Invoice::Settled(..) | Invoice::Unlawful(_) => self,
        }
    }
}

// What was read of a line with this text. Where the end of the line is missing, it goes wrong there.
pub(crate) fn if_ended<T: Drop>(
    line: Line,
    text: &[u8],
    read: Result<T, Malformed>,
) -> Result<T, Malformed>
    ensures { result ≡ if_ended line text.now read }
{
    let said = read?;
    check_ended(line, text)?;
    Ok(said)
}

// `amount;payee`, from a line that stands in the memory with these bytes.
fn parse_invoice(line: Line, text: &[u8]) -> Invoice
    requires whole { length text.now ≡ line.span.length }
    requires inside { line.span.start + line.span.length < 2 ^ 32 }
    ensures { result ≡ invoice_of line text.now }
{
    match if_ended(line, text, parse_worded(text, 0)) {
        Ok(worded) => {
            let start = line.span.start + worded.text.start as u32;
            let length = worded.text.length as u32;
            Invoice::Open(Claim {
                amount: worded.amount,
                payee: Span { start, length },
            })
        }
        Err(malformed) => Invoice::Unlawful(malformed),
    }
}

// The invoices of a memory, which holds their texts.
#[derive(Drop)]
pub struct OpenItems<'a, M> {
    pub mem: &'a M,
    // In the order of their lines.
    pub invoices: Vec<Invoice>,
}

impl<'a, M: Memory> OpenItems<'a, M> {
    pub fn read(heap: Global, mem: &'a M) -> Result<OpenItems<'a, M>, AllocError>
        ensures memory { IfOk result (λ items. items.mem.now ≡ mem.now) }
        ensures invoices { IfOk result (λ items. items.invoices.items ≡ invoices_of (M.bytes mem.now)) }
    {
        let mut invoices = Vec::new(heap);
        let lines = find_lines(heap, mem)?;
        for line in lines.iter() {
            let text = line.span.read(heap, mem)?;
            invoices.push(parse_invoice(*line, text.as_slice()))?;
        }
        Ok(OpenItems { mem, invoices })
    }
}
