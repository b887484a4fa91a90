// The input rows of a file with the hashes of their files in place of their paths.
ghost use Rattle.std.specs.Prelude.{◌≡◌, ℕ, ◌<◌, ◌≤◌, List, map, length, slice_index_or};
ghost use Rattle.aterm.specs.Tables.{rows_of};
ghost use Rattle.canonical.specs.Files.{values, input_value};
ghost use Rattle.hash_modulo.specs.Sets.{Bytes};
ghost use Rattle.hash_rows.specs.Seen.{held};
ghost use Rattle.hash_rows.specs.declared.hash.HashRow.{HashRow};
ghost use Rattle.right_paths.specs.Inputs.{hash_input_value, Aligned, RowsRight};
ghost use Rattle.right_paths.specs.Numbered.{named};

use crate::hash_input::HashInput;
use aterm::{Input, Placed, Rows};
use hash_rows::{Hash, HashRow, HashRows, gather_from};
use std::array;

// Row `i` of the table, with the names of the input that it numbers; past the last row, a default one, which nothing reads.
fn row_with_names(inputs: &[Placed<Input>], rows: &[HashRow], i: usize) -> HashInput
    ensures { (t : List ℕ) (d : HashRow) → i < length rows.now → hash_input_value t result ≡ named (values (input_value t) inputs.now) (slice_index_or rows.now i d) }
{
    let Some(row) = rows.get(i) else {
        return HashInput::default();
    };
    let input = inputs.get(row.row);
    let names = input.map(|input| input.value.names).unwrap_or_default();
    HashInput {
        hash: row.hash,
        names,
    }
}

// The rows of the table, each with its names. A row with a hash stands in no text, and nothing reads its place.
fn table_with_names(inputs: &[Placed<Input>], table: &HashRows) -> Rows<HashInput, 64>
    ensures { (t : List ℕ) → values (hash_input_value t) (rows_of result) ≡ map (named (values (input_value t) inputs.now)) (held table.now) }
{
    let rows = table.as_slice();
    let items = array::from_fn(|i| Placed {
        place: 0,
        value: row_with_names(inputs, rows, i),
    });
    Rows {
        items,
        len: rows.len(),
    }
}

// The rows that stand for the inputs, rising by hash, where hashes[i] is the hash of the file that row i names.
pub fn hash_inputs(inputs: &Rows<Input, 64>, hashes: &[Hash]) -> Rows<HashInput, 64>
    requires { length hashes.now ≤ inputs.now.len }
    ensures { (t : List ℕ) (g : Bytes → Bytes) → Aligned g (values (input_value t) (rows_of inputs.now)) hashes.now → RowsRight g (values (input_value t) (rows_of inputs.now)) (values (hash_input_value t) (rows_of result)) }
{
    let numbered = hashes
        .iter()
        .enumerate()
        .map(|(row, hash)| HashRow { hash: *hash, row });
    let table = gather_from(numbered);
    table_with_names(inputs.as_slice(), &table)
}
