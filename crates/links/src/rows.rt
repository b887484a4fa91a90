// The links of the input rows of a file.
ghost use Rattle.std.specs.Prelude.{◌<◌, length, slice_index_or};
ghost use Rattle.aterm.specs.declared.file.Input.{Input};
ghost use Rattle.aterm.specs.declared.rows.Placed.{Placed};
ghost use Rattle.image.specs.Files.{bytes_of, files_of};
ghost use Rattle.links.specs.Linked.{RowLinked, FileLinked};
ghost use Rattle.links.specs.Owners.{AllNames};

use crate::finding::find_file;
use crate::link::{Link, Links};
use crate::owners::Owners;
use crate::owning::is_owned;
use aterm::{Input, Placed};
use derivation::read_file;
use image::File;
use std::array;

// The link of an input row, where it names a file.
// `owners` and `text` stay two parameters: a struct would be made of them in `links_of`, for `link_at` and `link_row` alone.
fn link_row(owners: &Owners<'_, '_>, text: &[u8], row: &Input) -> Option<Link>
    ensures { AllNames owners.now → RowLinked (bytes_of owners.now.image.now) (files_of owners.now.image.now) text.now row.now result }
{
    let (number, file) = find_file(owners.image, row.path.bytes(text))?;
    let owned = is_owned(file.text, owners.get(number), text, row.names.as_slice());
    Some(Link {
        file: number as u16,
        owned,
    })
}

// The link of the row at a place of the list.
fn link_at(owners: &Owners<'_, '_>, text: &[u8], inputs: &[Placed<Input>], i: usize) -> Option<Link>
    ensures { AllNames owners.now → (v : Placed Input) → i < length inputs.now → RowLinked (bytes_of owners.now.image.now) (files_of owners.now.image.now) text.now (slice_index_or inputs.now i v).value result }
{
    let row = inputs.get(i)?;
    link_row(owners, text, &row.value)
}

// What is kept of a file, if it reads.
pub fn links_of(owners: &Owners<'_, '_>, file: File<'_>) -> Option<Links>
    ensures { AllNames owners.now → FileLinked (bytes_of owners.now.image.now) (files_of owners.now.image.now) file.entry.path.now file.entry.text.now result }
{
    let d = read_file(file.path, file.text).ok()?;
    let inputs = d.inputs.as_slice();
    let rows = array::from_fn(|i| link_at(owners, file.text, inputs, i));
    Some(Links {
        rows,
        count: inputs.len(),
    })
}
