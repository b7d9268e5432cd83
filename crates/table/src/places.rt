// Where a new block goes.
ghost use Rattle.std.specs.Prelude.{◌≡◌, ◌+◌, ◌^◌, ◌<◌};
ghost use Rattle.table.specs.PlaceLaw.{LowestPlaces};
ghost use Rattle.table.specs.Places.{clear, end_of, fits_at, lower, lowest_place, meets};

use rows::block::BlockRow;

// Whether a block at a place would have a position in common with a live one.
fn would_meet(place: u64, size: u64, row: BlockRow) -> bool
    requires { place + size < 2 ^ 64 }
    ensures { result ≡ meets place size row }
{
    match row {
        BlockRow::Free => false,
        BlockRow::Live(block) => {
            let start = block.place as u64;
            let stop = start + block.size as u64;
            size > 0 && block.size > 0 && place < stop && start < place + size
        }
    }
}

// What a place is sought for: a block of this size, below the end of the working part and clear of the live blocks.
#[derive(Clone, Copy)]
struct Search<'a> {
    limit: u32,
    rows: &'a [BlockRow],
    size: u64,
}

impl Search<'_> {
    fn is_clear(&self, place: u64) -> bool
        requires { place + self.now.size < 2 ^ 64 }
        ensures { result ≡ clear place self.now.size self.now.rows.now }
    {
        for row in self.rows {
            if would_meet(place, self.size, *row) {
                return false;
            }
        }
        true
    }

    fn fits_at(&self, place: u64) -> bool
        ensures { result ≡ fits_at self.now.limit self.now.rows.now place self.now.size }
    {
        let limit = self.limit as u64;
        place <= limit && self.size <= limit - place && self.is_clear(place)
    }

    // The lower of the best place so far and a candidate, if the candidate fits. One that is no lower is not held against the rows.
    fn lower(&self, best: Option<u64>, place: u64) -> Option<u64>
        ensures { result ≡ lower self.now.limit self.now.rows.now self.now.size best place }
    {
        if best.is_none_or(|other| place < other) && self.fits_at(place) {
            Some(place)
        } else {
            best
        }
    }
}

// Where the block of a row ends.
fn end_of(row: &BlockRow) -> Option<u64>
    ensures { result ≡ end_of row.now }
{
    if let BlockRow::Live(block) = row {
        Some(block.place as u64 + block.size as u64)
    } else {
        None
    }
}

// The lowest place for a block of this size. It is the start of the working part or the end of a live block.
pub(crate) fn find_place(start: u32, limit: u32, rows: &[BlockRow; 32], size: u64) -> Option<u64>
    ensures { result ≡ lowest_place start limit rows.now size }
{
    let search = Search { limit, rows, size };
    let mut best = search.lower(None, start as u64);
    for row in rows {
        if let Some(end) = end_of(row) {
            best = search.lower(best, end);
        }
    }
    best
}

// A place is answered exactly where there is one, and it is the lowest.
pub fn lowest_place_is_lowest()
    ensures { LowestPlaces }
{}
