// The files of an image as owners of outputs.
ghost use Rattle.std.specs.Prelude.{◌≤◌};
ghost use Rattle.image.specs.Files.{bytes_of, files_of};
ghost use Rattle.image.specs.Layout.{file_path, file_text};
ghost use Rattle.links.specs.Owners.{NamesKept};

use crate::output_names::OutputNames;
use derivation::read_file;
use image::Image;
use std::array;

// An image, and of each of its files, at its number less one, the names of its outputs: nothing where it does not read.
// So a file is read once, however many rows name it. The table takes 68 KB: 256 times 16 spans of 16 bytes, and their count.
#[derive(Drop)]
pub struct Owners<'i, 'a> {
    pub image: &'i Image<'a>,
    names: [Option<OutputNames>; 256],
}

// The names of the outputs of the file of this number, if it is there and reads.
fn names_at(image: &Image<'_>, number: usize) -> Option<OutputNames>
    ensures { 1 ≤ number → number ≤ files_of image.now → NamesKept (file_path (bytes_of image.now) number) (file_text (bytes_of image.now) number) result }
{
    let file = image.file(number)?;
    let d = read_file(file.path, file.text).ok()?;
    Some(OutputNames::new(&d.outputs))
}

impl<'i, 'a> Owners<'i, 'a> {
    ghost use Rattle.std.specs.Prelude.{◌≡◌, option_copied};
    ghost use Rattle.links.specs.Owners.{AllNames, names_of};

    // Reads every file of the image.
    pub fn new(image: &'i Image<'a>) -> Owners<'i, 'a>
        ensures image { result.image ≡ image.entry }
        ensures names { AllNames result }
    {
        let names = array::from_fn(|before| names_at(image, before + 1));
        Owners { image, names }
    }

    // What is kept of the file of this number.
    pub fn get(&self, number: usize) -> Option<&OutputNames>
        ensures { 1 ≤ number → number ≤ 256 → option_copied result ≡ names_of self.now number }
    {
        let before = number.checked_sub(1)?;
        self.names.get(before)?.as_ref()
    }
}
