// How the table is made, and what is asked of it.
ghost use Rattle.std.specs.Prelude.{◌≡◌, ◌+◌, ℕ, ◌<◌, ◌≤◌, None};
ghost use Rattle.image.specs.Files.{bytes_of, files_of};
ghost use Rattle.links.specs.Linked.{AllLinked, Kept, links_at as links_kept};
ghost use Rattle.links.specs.Owners.{AllNames, LinkedBy};

use super::LinkTable;
use crate::link::Links;
use crate::owners::Owners;
use crate::rows::links_of;
use image::Image;
use std::array;

impl LinkTable {
    // Reads every file of the image, to see which files it names.
    fn new(owners: &Owners<'_, '_>) -> LinkTable
        ensures linked { AllNames owners.now → AllLinked (bytes_of owners.now.image.now) (files_of owners.now.image.now) result }
        ensures past { AllNames owners.now → (k : ℕ) → files_of owners.now.image.now < k → links_kept result k ≡ None }
    {
        // The closure has clauses: without them the proof finds nothing of its answer.
        let files = array::from_fn(
            |before|
                requires { before < 256 }
                ensures { LinkedBy owners.entry.now (before + 1) result }
            { links_at(owners, before + 1) },
        );
        LinkTable { files }
    }

    // What is kept of a file, by its number: nothing where it does not read, or the number is out of range.
    pub fn get(&self, number: usize) -> Option<Links>
        ensures { Kept self.now number result }
    {
        let before = number.checked_sub(1)?;
        *self.files.get(before)?
    }
}

// What is kept of the file of this number, if it is there and reads.
fn links_at(owners: &Owners<'_, '_>, number: usize) -> Option<Links>
    ensures { LinkedBy owners.now number result }
{
    let file = owners.image.file(number)?;
    links_of(owners, file)
}

// Reads every file of the image twice: first for the names of its outputs, and then for the files that it names.
pub fn link_files(image: &Image<'_>) -> LinkTable
    ensures linked { AllLinked (bytes_of image.now) (files_of image.now) result }
    ensures past { (k : ℕ) → files_of image.now < k → links_kept result k ≡ None }
{
    let owners = Owners::new(image);
    LinkTable::new(&owners)
}
