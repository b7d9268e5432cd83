ghost use Rattle.std.specs.Prelude.{◌≡◌, true};

// The token of a read-only handle. It may be let go only once it is spent.
pub struct Bytes {
    pub(crate) ledger: u32,
    pub(crate) row: u8,
    pub(crate) spent: bool,
}

impl Drop for Bytes {
    fn drop(self)
        requires { self.spent ≡ true }
    {
        let Bytes {
            ledger: _,
            row: _,
            spent: _,
        } = self;
    }
}
