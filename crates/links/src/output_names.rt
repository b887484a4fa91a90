// The names of the outputs of a file.
ghost use Rattle.std.specs.Prelude.{◌≡◌, ◌<◌, ◌≤◌, length, slice_index_or};
ghost use Rattle.aterm.specs.declared.file.Output.{Output};
ghost use Rattle.aterm.specs.declared.rows.Placed.{Placed};

use aterm::{Output, Placed, Rows, Span};
use std::array;

// Each by its place in the file's text, in text order: the first `count` of `spans`.
// No `Rows`: it keeps the place of each row beside it, which is half as much again and not asked for.
#[derive(Clone, Copy)]
pub struct OutputNames {
    spans: [Span; 16],
    count: usize,
    ghost few: { count ≤ 16 },
}

// The name of the output at a place of the list; behind its end an empty one, which fills the room.
fn name_at(outputs: &[Placed<Output>], i: usize) -> Span
    ensures { (v : Placed Output) → i < length outputs.now → result ≡ (slice_index_or outputs.now i v).value.name }
{
    let output = outputs.get(i);
    output.map(|output| output.value.name).unwrap_or_default()
}

impl OutputNames {
    ghost use Rattle.std.specs.Prelude.{map};
    ghost use Rattle.aterm.specs.Tables.{rows_of};
    ghost use Rattle.links.specs.Owners.{spans_of};

    // Those of these outputs.
    pub fn new(outputs: &Rows<Output, 16>) -> OutputNames
        ensures { spans_of result ≡ map (λ v. v.value.name) (rows_of outputs.now) }
    {
        let rows = outputs.as_slice();
        let spans = array::from_fn(|i| name_at(rows, i));
        OutputNames {
            spans,
            count: rows.len(),
        }
    }

    pub fn as_slice(&self) -> &[Span]
        ensures { result.now ≡ spans_of self.now }
    {
        &self.spans[..self.count]
    }
}
