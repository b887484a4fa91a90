// The laws of the table, each a clause of one contract.
ghost use Rattle.hash_rows.specs.Laws.{RowsOrdered, GreatestStands, RowsFixed};

// The rows rise strictly; of pairs in the order of their paths the greatest path stands at equal hashes; the rows are there and are the only ones.
pub fn rows_stand() -> bool
    ensures ordered { RowsOrdered }
    ensures greatest { GreatestStands }
    ensures fixed { RowsFixed }
{
    true
}
