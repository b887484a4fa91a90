// The first questions of a call: is a set opened, and is there a file of this number?
ghost use Rattle.checker.specs.Asked.{SetAsked, StateAsked, FileAsked};
ghost use Rattle.checker.specs.Seen.{view_of, view_in};

use super::{Checker, OpenSet};
use crate::refused::CallRefusal;
use crate::state::State;
use image::File;

impl<'a> Checker<'a> {
    // The set, if one is opened.
    pub(super) fn set(&self) -> Result<&OpenSet<'a>, CallRefusal>
        ensures { SetAsked (view_of self.now) result }
    {
        self.opened.as_ref().ok_or(CallRefusal::NotOpened)
    }
}

impl<'a> OpenSet<'a> {
    // The state of the file of this number, if there is one.
    pub(super) fn state(&self, file: usize) -> Result<State, CallRefusal>
        ensures { StateAsked (view_in self.now) file result }
    {
        if !(1..=self.files.image.count()).contains(&file) {
            return Err(CallRefusal::NoFile);
        }
        Ok(self.states.get(file))
    }

    // That file itself, if there is one.
    pub(super) fn file(&self, file: usize) -> Result<File<'a>, CallRefusal>
        ensures { FileAsked (view_in self.now) file result }
    {
        self.files.image.file(file).ok_or(CallRefusal::NoFile)
    }
}
