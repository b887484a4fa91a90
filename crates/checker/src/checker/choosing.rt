// Which file is handed out next.
ghost use Rattle.std.specs.Prelude.{◌≡◌, ◌+◌, Decides};
ghost use Rattle.image.specs.Files.{files_of};
ghost use Rattle.checker.specs.Calls.{Choice};
ghost use Rattle.checker.specs.Seen.{view_in, SaysReady};
ghost use Rattle.checker.specs.Views.{Exists, PendingAt, ReadyFile, ReadyAt, Lowest};

use super::OpenSet;
use crate::standing::are_ready;
use crate::state::State;
use std::ops::Range;

impl<'a> OpenSet<'a> {
    // The numbers of the files. Not `1..=count`: what the library proves of a search speaks of a range without its end.
    pub(super) fn numbers(&self) -> Range<usize>
        ensures { result ≡ record { start = 1; «end» = files_of self.now.files.image + 1 } }
    {
        1..self.files.image.count() + 1
    }

    fn is_pending(&self, file: usize) -> bool
        ensures { Decides result (PendingAt (view_in self.now) file) }
    {
        self.numbers().contains(&file) && matches!(self.states.get(file), State::Pending)
    }

    // A file that does not read is ready.
    fn is_ready(&self, file: usize) -> bool
        ensures { Exists (view_in self.now) file → Decides result (ReadyFile (view_in self.now) file) }
    {
        match self.files.links.get(file) {
            Some(links) => are_ready(&links, &self.states),
            None => true,
        }
    }

    fn is_pending_and_ready(&self, file: usize) -> bool
        ensures { SaysReady self.now file result }
    {
        self.is_pending(file) && self.is_ready(file)
    }

    fn first_pending(&self) -> Option<usize>
        ensures { Lowest (PendingAt (view_in self.now)) result }
    {
        self.numbers().find(|file| self.is_pending(*file))
    }

    fn first_ready(&self) -> Option<usize>
        ensures { Lowest (ReadyAt (view_in self.now)) result }
    {
        self.numbers().find(|file| self.is_pending_and_ready(*file))
    }

    // The lowest pending file that is ready, or, if none is, the lowest pending one.
    pub(super) fn choose(&self) -> Option<usize>
        ensures { Choice (view_in self.now) result }
    {
        // No `or_else`: after it nothing is known of what its closure answered, so the proof did not close.
        match self.first_ready() {
            Some(file) => Some(file),
            None => self.first_pending(),
        }
    }
}
