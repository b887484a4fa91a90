// What is told of a file and of the whole set: a verdict, the line of a file, and the last line.
ghost use Rattle.std.specs.Prelude.{◌≡◌, ◌==◌};
ghost use Rattle.report.specs.Texts.{refused_text};
ghost use Rattle.checker.specs.Calls.{Written, Tells, Lines, Tails, one_accepted, accepted};
ghost use Rattle.checker.specs.Seen.{view_of, view_in};
ghost use Rattle.checker.specs.Views.{told};

use super::writing::write_text;
use super::{Checker, OpenSet};
use crate::refused::CallRefusal;
use crate::state::State;
use report::{FileLine, RefusedLine, Summary};
use verdict::{Fault, tell_verdict};

// The verdict of a file in this state; none before it is settled.
fn verdict_of(state: State) -> Option<Result<(), Fault>>
    ensures { result ≡ told state }
{
    match state {
        State::Settled(settlement) => Some(settlement.verdict),
        State::Pending | State::Taken => None,
    }
}

// Whether a file in this state is accepted.
fn is_accepted(state: State) -> bool
    ensures { result ≡ (one_accepted state == 1) }
{
    matches!(verdict_of(state), Some(Ok(())))
}

// The line of a refusal, by its number and slot, from the buffer's start.
pub fn refusal(number: u8, slot: u16, out: &mut [u8]) -> Result<usize, CallRefusal>
    ensures { Written (refused_text number slot) out.old result out.new }
{
    write_text(&RefusedLine { number, slot }, out)
}

impl<'a> OpenSet<'a> {
    // How many files are accepted.
    fn accepted(&self) -> usize
        ensures { result ≡ accepted (view_in self.now).row (view_in self.now).count }
    {
        (1..=self.files.image.count())
            .filter(|file| is_accepted(self.states.get(*file)))
            .count()
    }
}

impl<'a> Checker<'a> {
    // The verdict of a file, if it is settled.
    pub fn verdict(&self, file: usize) -> Result<Option<Result<(), Fault>>, CallRefusal>
        ensures { Tells (view_of self.now) file result }
    {
        let state = self.set()?.state(file)?;
        Ok(verdict_of(state))
    }

    // The line of a file, from the buffer's start.
    pub fn line(&self, file: usize, out: &mut [u8]) -> Result<usize, CallRefusal>
        ensures { Lines (view_of self.now) file out.old result out.new }
    {
        // A closure: of another crate's function that is passed by its name the check has no contract.
        let told = self.verdict(file)?.map(|verdict| tell_verdict(verdict));
        let line = FileLine { number: file, told };
        write_text(&line, out)
    }

    // The last line of the report, from the buffer's start.
    pub fn tail(&self, out: &mut [u8]) -> Result<usize, CallRefusal>
        ensures { Tails (view_of self.now) out.old result out.new }
    {
        let set = self.set()?;
        let summary = Summary {
            files: set.files.image.count(),
            accepted: set.accepted(),
        };
        write_text(&summary, out)
    }
}
