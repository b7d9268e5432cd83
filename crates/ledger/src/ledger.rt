use table::sound::SoundTable;

// A ledger of handles and blocks. Whatever was called on it, its table is sound: counts are true, handles lie in their
// blocks, blocks lie apart in the working part, and so do the capacities of writable handles.
#[derive(Drop)]
pub struct Ledger {
    pub(crate) table: SoundTable,
}
