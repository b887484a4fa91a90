// The files of an image, one after another.
ghost use Rattle.std.specs.Prelude.{◌≡◌, ◌≤◌, length};
ghost use Rattle.std.specs.Iterator.{YieldsFirstBy, item_count};

use crate::image::{File, Image};

// The files that are left of an image, from the one of this number on.
// `Copy` as well: `Clone` alone is not derived over a ghost field.
#[derive(Clone, Copy)]
pub struct Files<'i, 'a> {
    image: &'i Image<'a>,
    number: usize,
    ghost counted: { 1 ≤ number },
}

impl<'a> Image<'a> {
    ghost use Rattle.image.specs.Files.{bytes_of, files_of};
    ghost use Rattle.image.specs.InOrder.{files_from, files_left};

    // The files, in the order of their numbers.
    pub fn files<'i>(&'i self) -> Files<'i, 'a>
        ensures are { files_left result ≡ files_from (bytes_of self.now) 1 (files_of self.now) }
        ensures few { length (files_left result) ≤ 256 }
    {
        Files {
            image: self,
            number: 1,
        }
    }
}

impl<'i, 'a> Iterator for Files<'i, 'a> {
    ghost use Rattle.image.specs.InOrder.{pair, files_left};

    type Item = File<'a>;

    ghost next_gives = { YieldsFirstBy pair files_left };

    ghost remaining = { item_count files_left };

    fn next(&mut self) -> Option<File<'a>> {
        let file = self.image.file(self.number)?;
        self.number += 1;
        Some(file)
    }
}
