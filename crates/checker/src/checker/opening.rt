// A checker, and the set that it opens.
ghost use Rattle.std.specs.Prelude.{◌≡◌, OnOk, OnErr};
ghost use Rattle.image.specs.Files.{bytes_of, files_of};
ghost use Rattle.checker.specs.Calls.{Kind};
ghost use Rattle.checker.specs.Opened.{OpensSet};
ghost use Rattle.checker.specs.Seen.{view_of, view_in, view_none};
ghost use Rattle.checker.specs.Soundness.{SoundView};
ghost use Rattle.checker.specs.Views.{fresh};

use super::{Checker, LinkedImage, OpenSet};
use crate::refused::OpenRefusal;
use crate::states::States;
use image::Image;
use links::link_files;

impl<'a> LinkedImage<'a> {
    // Reads every file of an image.
    fn new(image: Image<'a>) -> LinkedImage<'a>
        ensures { result.image ≡ image.entry }
    {
        LinkedImage {
            links: link_files(&image),
            image,
        }
    }
}

impl<'a> OpenSet<'a> {
    // The files of an image, all pending.
    fn new(image: Image<'a>) -> OpenSet<'a>
        ensures { view_in result ≡ fresh (bytes_of image.entry) (files_of image.entry) }
    {
        OpenSet {
            files: LinkedImage::new(image),
            states: States::pending(),
        }
    }
}

impl<'a> Checker<'a> {
    // Nothing is opened.
    pub fn new() -> Checker<'a>
        ensures none { view_of result ≡ view_none }
        ensures sound { (kind : Kind) → SoundView kind (view_of result) }
    {
        Checker { opened: None }
    }

    // Opens the set of an image, unless one is opened; a refusal leaves all as it was.
    pub fn open(&mut self, bytes: &'a [u8]) -> Result<(), OpenRefusal>
        ensures opens { OpensSet (view_of self.old) bytes.now result (view_of self.new) }
        ensures sound { OnOk result ((kind : Kind) → SoundView kind (view_of self.new)) }
        ensures same { OnErr result (self.new ≡ self.old) }
    {
        if self.opened.is_some() {
            return Err(OpenRefusal::AlreadyOpen);
        }
        let image = Image::open(bytes).map_err(OpenRefusal::Image)?;
        self.opened = Some(OpenSet::new(image));
        Ok(())
    }
}
