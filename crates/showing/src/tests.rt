use crate::cents::Cents;
use crate::quoted::Quoted;
use crate::shown::Shown;
use lines::line::Line;
use lines::span::Span;
use matching::entry::{Entry, Outcome, Report};
use matching::invoice::{Claim, Invoice};
use statement::malformed::Malformed;
use statement::record::{Part, Worded};
use std::test::Fail;

fn line(start: u32, length: u32) -> Line {
    let span = Span { start, length };
    Line { span, ended: true }
}

#[test]
fn amounts_have_two_decimals(rt: HostRuntime) -> Result<(), Fail> {
    let amounts = [
        (0, "        0.00"),
        (7, "        0.07"),
        (-1, "       -0.01"),
        (-99, "       -0.99"),
        (-100, "       -1.00"),
        (120000, "     1200.00"),
        (-7500, "      -75.00"),
        (999999999999, "9999999999.99"),
    ];
    for (cents, shown) in amounts {
        let text = Cents(cents).to_string(rt.alloc())?;
        assert_eq!(rt; text.as_str(), shown);
    }
    Ok(())
}

#[test]
fn texts_stand_between_quotation_marks(rt: HostRuntime) -> Result<(), Fail> {
    let text = Quoted(b"Keller & Sohn").to_string(rt.alloc())?;
    assert_eq!(rt; text.as_str(), "\"Keller & Sohn\"");
    let text = Quoted(b"a \"b\\").to_string(rt.alloc())?;
    assert_eq!(rt; text.as_str(), "\"a \\\"b\\\\\"");
    let text = Quoted(&[0, 9, 31, 32, 126, 127, 195, 188, 255]).to_string(rt.alloc())?;
    assert_eq!(rt; text.as_str(), "\"\\x00\\x09\\x1f ~\\x7f\\xc3\\xbc\\xff\"");
    let text = Quoted(b"").to_string(rt.alloc())?;
    assert_eq!(rt; text.as_str(), "\"\"");
    Ok(())
}

// A pair and an unreadable line; a settled and an unreadable invoice.
#[test]
fn report_shows_its_four_parts(rt: HostRuntime) -> Result<(), Fail> {
    let amount = 250;
    let text = Part {
        start: 6,
        length: 5,
    };
    let paid = Entry {
        line: line(0, 11),
        outcome: Outcome::Paired(Worded { amount, text }, 0),
    };
    let cut = Entry {
        line: line(12, 3),
        outcome: Outcome::Unreadable(Malformed { at: 3 }),
    };
    let payee = Span {
        start: 4,
        length: 5,
    };
    let settled = Invoice::Settled(Claim { amount, payee }, 0);
    let misspelt = Invoice::Unlawful(Malformed { at: 2 });
    let report = Report {
        entries: vec![in rt.alloc(); paid, cut]?,
        invoices: vec![in rt.alloc(); settled, misspelt]?,
    };
    let shown = Shown {
        statement: b"P;250;Weber\nP;1\n",
        invoices: b"250;Weber\n75x0;Ost\n",
        report: &report,
    };
    let text = shown.to_string(rt.alloc())?;
    let wanted = "\
Statement of 2 lines, 2 invoices

Logged
 line  position  length  kind             amount  text
    2        12       3  unreadable, wrong at  3  \"P;1\"

Paired
 line  invoice        amount  payee
    1        1          2.50  \"Weber\"

Totals       lines        amount
paired           1          2.50
unmatched        0          0.00
balances         0
unreadable       1

Still open
invoice        amount  payee
      2  unreadable, wrong at 2
";
    assert_eq!(rt; text.as_str(), wanted);
    Ok(())
}
