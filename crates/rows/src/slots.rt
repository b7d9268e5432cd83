// Rows of any kind, by number: read, changed and chosen in one way for handles and blocks.
ghost use Rattle.std.specs.Prelude.{◌≡◌, ◌≤◌, Bool, length, slice_index_or, slice_set};
ghost use Rattle.rows.specs.Slots.{highest};

// A row that is free or taken.
pub trait Slot {
    ghost vacant: { Self → Bool };

    fn is_vacant(&self) -> bool
        ensures { result ≡ vacant self.now };
}

// The row of a number, or `free` past the last.
pub fn row_at<R: Copy>(rows: &[R], row: u8, free: R) -> R
    ensures { result ≡ slice_index_or rows.now row free }
{
    rows.get(row as usize).copied().unwrap_or(free)
}

// Changes the row of a number; past the last it changes nothing.
#[tactic(auto, using(std::proofs::lemmas::List::set_past))]
pub fn set_row<R: Copy>(rows: &mut [R], row: u8, to: R)
    ensures { rows.new ≡ slice_set rows.old row to }
{
    let index = row as usize;
    if index < rows.len() {
        rows[index] = to;
    }
}

// The free row of highest number: looks from the top and stops at the first.
#[tactic(auto, using(crate::proofs::Highest::highest_there, crate::proofs::Highest::highest_lower))]
pub fn highest_vacant<R: Slot>(rows: &[R]) -> Option<u8>
    requires { length rows.now ≤ 64 }
    ensures { result ≡ highest R.Slot.vacant rows.now }
{
    for index in (0..rows.len()).rev() {
        if rows[index].is_vacant() {
            return Some(index as u8);
        }
    }
    None
}
