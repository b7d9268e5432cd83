ghost use Rattle.std.specs.Char.{is_ascii_digit};
ghost use Rattle.std.specs.List.{prefix_len};
ghost use Rattle.std.specs.Prelude.{◌≡◌, ◌≤◌, length, pos};
ghost use Rattle.statement.specs.Amounts.{AllDigits, amount_at, decimal, digits_from, leading_digits, most_digits, semicolon_at, stands_at};

use crate::malformed::Malformed;

// The most digits that an amount has.
const MOST_DIGITS: usize = 12;

// An amount that was read out of a line.
#[derive(Clone, Copy, PartialEq, Eq, Debug)]
pub struct Amount {
    pub cents: i64,
    // The index behind its last digit.
    pub behind: usize,
}

// How many digits bytes begin with.
fn count_digits(bytes: &[u8]) -> usize
    ensures { result ≡ prefix_len is_ascii_digit bytes.now }
{
    bytes.iter().take_while(|b| b.is_ascii_digit()).count()
}

// The digits that bytes begin with, at most 12.
#[tactic(auto, using(crate::proofs::DigitSteps::counted_digits))]
fn leading_digits(bytes: &[u8]) -> &[u8]
    ensures value { result.now ≡ leading_digits bytes.now }
    ensures digits { AllDigits result.now }
    ensures few { length result.now ≤ most_digits }
    ensures within { length result.now ≤ length bytes.now }
{
    let front = bytes.get(..MOST_DIGITS).unwrap_or(bytes);
    &front[..count_digits(front)]
}

// The number that digits spell.
#[tactic(auto, using(crate::proofs::DigitSteps::digit_sums))]
fn decimal(digits: &[u8]) -> i64
    requires digits { AllDigits digits.now }
    requires few { length digits.now ≤ most_digits }
    ensures { result ≡ pos (decimal digits.now) }
{
    let mut value = 0;
    for digit in digits {
        value = value * 10 + i64::from(digit - b'0');
    }
    value
}

// Whether a byte stands at an index of the line.
fn stands_at(line: &[u8], at: usize, byte: u8) -> bool
    ensures { result ≡ stands_at line.now at byte }
{
    line.get(at) == Some(&byte)
}

// The amount whose digits begin at an index, behind a minus or not.
fn parse_digits(line: &[u8], from: usize, minus: bool) -> Result<Amount, Malformed>
    ensures { result ≡ digits_from minus from line.now }
{
    let digits = leading_digits(line.get(from..).unwrap_or_default());
    if digits.is_empty() {
        return Err(Malformed { at: from });
    }
    let value = decimal(digits);
    let cents = if minus { -value } else { value };
    let behind = from + digits.len();
    Ok(Amount { cents, behind })
}

// The amount at an index of the line, or the index at which it goes wrong.
pub fn parse_amount(line: &[u8], at: usize) -> Result<Amount, Malformed>
    ensures { result ≡ amount_at line.now at }
{
    if stands_at(line, at, b'-') {
        parse_digits(line, at + 1, true)
    } else {
        parse_digits(line, at, false)
    }
}

// The index behind a semicolon that stands at an index of the line.
pub fn parse_semicolon(line: &[u8], at: usize) -> Result<usize, Malformed>
    ensures { result ≡ semicolon_at line.now at }
{
    if stands_at(line, at, b';') {
        Ok(at + 1)
    } else {
        Err(Malformed { at })
    }
}
