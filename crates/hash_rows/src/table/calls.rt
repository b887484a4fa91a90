// What is asked of the table, and how it changes.
ghost use Rattle.std.specs.Prelude.{◌≡◌, ◌+◌, ◌<◌, ◌≤◌, List, [], length};
ghost use Rattle.std.specs.Iterator.{AlwaysYields, UpTo};
ghost use Rattle.hash_rows.specs.Rows.{row_of, Found, Rises, Placed, Gathered};
ghost use Rattle.hash_rows.specs.Seen.{held};
ghost use Rattle.hash_rows.specs.declared.hash.HashRow.{HashRow};

use super::HashRows;
use crate::hash::{Hash, HashRow};
use arrayvec::ArrayVec;

impl HashRows {
    pub fn new() -> HashRows
        ensures { held result ≡ [] }
    {
        HashRows {
            rows: ArrayVec::new(),
        }
    }

    // The rows, rising by hash.
    pub fn as_slice(&self) -> &[HashRow]
        ensures { result.now ≡ held self.now }
    {
        self.rows.as_slice()
    }

    // The table with this row in the place of any with its hash; there is room for one more.
    pub(crate) fn with(self, hash: Hash, row: usize) -> HashRows
        requires { length (held self) < 64 }
        ensures placed { Placed (held self) (row_of hash row) (held result) }
        ensures few { length (held result) ≤ length (held self) + 1 }
    {
        let mut rows = self.rows;
        let new = HashRow { hash, row };
        match place(rows.as_slice(), &hash) {
            Ok(at) => rows[at] = new,
            Err(at) => rows.insert(at, new),
        }
        HashRows { rows }
    }
}

// Where the hash stands, or where it would.
fn place(rows: &[HashRow], hash: &Hash) -> Result<usize, usize>
    requires { Rises rows.now }
    ensures { Found rows.now hash.now.bytes result }
{
    rows.binary_search_by(|x| x.hash.cmp(hash))
}

// The last row of each hash among those that come. For the crate above, which has at most 64 rows.
pub fn gather_from<I: Iterator<Item = HashRow> + Drop>(pairs: I) -> HashRows
    requires can { I.Iterator.can_next pairs }
    requires few { UpTo (I.Iterator.remaining pairs) 64 }
    ensures { (ps : List HashRow) → AlwaysYields I.Iterator.next_gives (λ x. x) pairs ps → Gathered ps (held result) }
{
    let mut table = HashRows::new();
    for pair in pairs {
        table = table.with(pair.hash, pair.row);
    }
    table
}

// The last pair of each hash. Public; no code here calls it: right_paths gathers over an iterator, by `gather_from`.
pub fn gather(pairs: &[HashRow]) -> HashRows
    requires { length pairs.now ≤ 64 }
    ensures { Gathered pairs.now (held result) }
{
    gather_from(pairs.iter().copied())
}
