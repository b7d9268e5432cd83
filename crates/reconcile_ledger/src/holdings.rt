use std::fmt;
use std::fmt::{Display, Formatter};
use table::tally::Tally;

// The bytes that slid, and what the ledger holds.
#[derive(Clone, Copy)]
pub struct Holdings {
    pub slid: u64,
    pub tally: Tally,
}

impl Display for Holdings {
    fn fmt<W: fmt::Write>(&self, f: &mut Formatter<W>) -> fmt::Result {
        let slid = self.slid;
        let Tally {
            handles,
            blocks,
            bytes,
        } = self.tally;
        writeln!(f, "\nBytes\nslid        {slid:>6}")?;
        writeln!(f, "handles     {handles:>6}")?;
        writeln!(f, "blocks      {blocks:>6}")?;
        writeln!(f, "in blocks   {bytes:>6}")
    }
}
