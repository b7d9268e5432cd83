ghost use Rattle.showing.specs.Texts.{escaped, quoted};
ghost use Rattle.std.specs.Prelude.{Some};

use std::fmt;
use std::fmt::{Display, Formatter};

// A byte between quotation marks: in hexadecimal if it is no printing ASCII.
#[derive(Clone, Copy)]
struct Escaped(u8);

impl Display for Escaped {
    ghost output = { λ e. Some (escaped e.0) };

    fn fmt<W: fmt::Write>(&self, f: &mut Formatter<W>) -> fmt::Result {
        let byte = self.0;
        match byte {
            b'"' => f.write_str("\\\""),
            b'\\' => f.write_str("\\\\"),
            b' '..=b'~' => f.write_char(char::from(byte)),
            _ => write!(f, "\\x{byte:02x}"),
        }
    }
}

// Bytes between quotation marks.
#[derive(Clone, Copy)]
pub struct Quoted<'a>(pub &'a [u8]);

impl Display for Quoted<'_> {
    ghost output = { λ q. Some (quoted q.0.now) };

    fn fmt<W: fmt::Write>(&self, f: &mut Formatter<W>) -> fmt::Result {
        f.write_str("\"")?;
        for byte in self.0 {
            Escaped(*byte).fmt(f)?;
        }
        f.write_str("\"")
    }
}
