ghost use Rattle.statement.specs.Grammar.{ReadRight};
ghost use Rattle.statement.specs.Records.{balance_of, behind_letter, if_ended, part_bytes, record_of, worded_at};
ghost use Rattle.std.specs.Prelude.{◌≡◌, Ok};

use crate::amount::{parse_amount, parse_semicolon};
use crate::malformed::Malformed;
use lines::line::Line;

// A part of a line.
#[derive(Clone, Copy, PartialEq, Eq, Debug)]
pub struct Part {
    pub start: usize,
    pub length: usize,
}

// An amount, a semicolon and a text, as payments and invoices have them.
#[derive(Clone, Copy, PartialEq, Eq, Debug)]
pub struct Worded {
    pub amount: i64,
    // Everything behind the semicolon, empty or not.
    pub text: Part,
}

// What a line of a statement says.
#[derive(Clone, Copy, PartialEq, Eq, Debug)]
pub enum Record {
    Balance(i64),
    Payment(Worded),
    Charge(Worded),
    Return(Worded),
}

// An amount from an index on, a semicolon, and a text up to the end of the line.
pub fn parse_worded(line: &[u8], at: usize) -> Result<Worded, Malformed>
    ensures { result ≡ worded_at line.now at }
{
    let amount = parse_amount(line, at)?;
    let start = parse_semicolon(line, amount.behind)?;
    let text = Part {
        start,
        length: line.len() - start,
    };
    Ok(Worded {
        amount: amount.cents,
        text,
    })
}

// What follows the letter of a balance: a semicolon and an amount, and nothing behind it.
fn parse_balance(line: &[u8]) -> Result<i64, Malformed>
    ensures { result ≡ balance_of line.now }
{
    let at = parse_semicolon(line, 1)?;
    let amount = parse_amount(line, at)?;
    if amount.behind == line.len() {
        Ok(amount.cents)
    } else {
        Err(Malformed { at: amount.behind })
    }
}

// What follows the letter of any other kind: a semicolon, an amount, a semicolon and a text.
fn parse_behind_letter(line: &[u8]) -> Result<Worded, Malformed>
    ensures { result ≡ behind_letter line.now }
{
    let at = parse_semicolon(line, 1)?;
    parse_worded(line, at)
}

// What a line of a statement says: `B;amount`, or `P`, `C` or `R`, `;`, an amount, `;` and a text.
#[tactic(auto, using(crate::proofs::GrammarLaw::reads_right))]
pub fn parse_record(line: &[u8]) -> Result<Record, Malformed>
    ensures answer { result ≡ record_of line.now }
    ensures law { ReadRight line.now }
{
    match line {
        [b'B', ..] => parse_balance(line).map(Record::Balance),
        [b'P', ..] => parse_behind_letter(line).map(Record::Payment),
        [b'C', ..] => parse_behind_letter(line).map(Record::Charge),
        [b'R', ..] => parse_behind_letter(line).map(Record::Return),
        _ => Err(Malformed { at: 0 }),
    }
}

// Where the end of a line is missing, the line goes wrong there.
pub fn check_ended(line: Line, text: &[u8]) -> Result<(), Malformed>
    ensures { result ≡ if_ended line text.now (Ok tt) }
{
    if line.ended {
        Ok(())
    } else {
        Err(Malformed { at: text.len() })
    }
}

// The bytes of a part of the line, as far as the line has them.
pub fn part_of(line: &[u8], part: Part) -> &[u8]
    ensures { result.now ≡ part_bytes line.now part }
{
    let rest = line.get(part.start..).unwrap_or_default();
    rest.get(..part.length).unwrap_or(rest)
}
