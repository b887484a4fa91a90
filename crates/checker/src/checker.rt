// The checker's types; the modules below have what it does.
ghost use Rattle.std.specs.Prelude.{◌≡◌};
ghost use Rattle.image.specs.Files.{bytes_of, files_of};
ghost use Rattle.links.specs.Linked.{AllLinked};

use crate::states::States;
use image::Image;
use links::LinkTable;

// An image that has opened, and what is kept of its files.
// A struct of its own, so that a row of the states beside it can be lent to be changed.
#[derive(Drop)]
struct LinkedImage<'a> {
    image: Image<'a>,
    links: LinkTable,
    ghost linked: { ∥ AllLinked (bytes_of image) (files_of image) links ∥₁ },
}

// A set that is opened: its files, and one row a file with its state.
#[derive(Drop)]
struct OpenSet<'a> {
    files: LinkedImage<'a>,
    states: States,
}

// It opens one set.
#[derive(Drop)]
pub struct Checker<'a> {
    opened: Option<OpenSet<'a>>,
}

// A visit to a file that was taken. It is not `Drop`: it has to be settled or put back.
pub struct Visit {
    file: usize,
}

impl Visit {
    // The number of its file.
    pub fn file(&self) -> usize
        ensures { result ≡ self.now.file }
    {
        self.file
    }
}

pub mod asking;
pub mod choosing;
pub mod cycles;
pub mod locating;
pub mod opening;
pub mod reporting;
pub mod rewriting;
pub mod running;
pub mod settling;
pub mod visits;
pub mod writing;
