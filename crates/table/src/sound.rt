ghost use Rattle.table.specs.Soundness.{Sound};

use crate::table::Table;

// A table that is sound, whatever becomes of it: counts are true, handles lie in their blocks, blocks lie apart in the working
// part, and so do the capacities of writable handles.
#[derive(Drop)]
pub struct SoundTable {
    pub rows: Table,
    ghost sound: { ∥ Sound rows ∥₁ },
}
