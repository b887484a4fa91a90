ghost use Rattle.std.specs.Prelude.{◌≤◌, length};
ghost use Rattle.hash_rows.specs.Rows.{Rises};

use crate::hash::HashRow;
use arrayvec::ArrayVec;

// At most 64 rows, whose hashes rise strictly in byte order. Not a map of the library's: those use the heap.
// `few` stands here for the law of the table (`RowsOrdered`): what a contract sees of an `ArrayVec` does not bound its items.
#[derive(Drop)]
pub struct HashRows {
    rows: ArrayVec<HashRow, 64>,
    ghost few: { length rows.items ≤ 64 },
    ghost rising: { Rises rows.items },
}

pub mod calls;
