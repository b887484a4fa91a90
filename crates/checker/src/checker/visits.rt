// Visits to the files of a set: take, settle, put back.
ghost use Rattle.std.specs.Prelude.{◌≡◌, ◌+◌, ◌%◌, ◌^◌, Decides, OnOk, OnErr, IfOk, IfErr};
ghost use Rattle.checker.specs.Calls.{SomeTaken, Takes, VisitRefused, SomeSettled, Settles, PutsBack};
ghost use Rattle.checker.specs.Seen.{view_of, view_in, visited, told_back};
ghost use Rattle.checker.specs.Settling.{kind_of};
ghost use Rattle.checker.specs.Soundness.{SoundView};
ghost use Rattle.checker.specs.Views.{TakenAt};

use super::{Checker, OpenSet, Visit};
use crate::refused::CallRefusal;
use crate::state::State;
use sink::DigestSink;

impl<'a> OpenSet<'a> {
    // Whether the file is taken.
    fn is_taken(&self, file: usize) -> bool
        ensures { Decides result (TakenAt (view_in self.now) file) }
    {
        self.numbers().contains(&file) && matches!(self.states.get(file), State::Taken)
    }

    // Whether some file is taken.
    fn has_taken(&self) -> bool
        ensures { Decides result (SomeTaken (view_in self.now)) }
    {
        self.numbers().any(|file| self.is_taken(file))
    }

    fn take(&mut self) -> Result<Visit, CallRefusal>
        ensures takes { Takes (view_in self.old) (visited result) (view_in self.new) }
        ensures same { OnErr result (self.new ≡ self.old) }
    {
        if self.has_taken() {
            return Err(CallRefusal::VisitOut);
        }
        let file = self.choose().ok_or(CallRefusal::NonePending)?;
        self.states.put(file, State::Taken);
        Ok(Visit { file })
    }

    // The file is settled with what is decided of it.
    fn settle<S: DigestSink>(
        &mut self,
        visit: Visit,
        sink: &mut S,
    ) -> Result<u64, (Visit, CallRefusal)>
        ensures settles { SoundView (kind_of S.Sink.step S.DigestSink.start S.DigestSink.capacity S.DigestSink.answered S.DigestSink.wide) (view_in self.old) → Settles (kind_of S.Sink.step S.DigestSink.start S.DigestSink.capacity S.DigestSink.answered S.DigestSink.wide) (view_in self.old) visit.file (S.Sink.held sink.old).meaning (told_back result) (view_in self.new) (S.Sink.held sink.new).meaning }
        ensures rise { SoundView (kind_of S.Sink.step S.DigestSink.start S.DigestSink.capacity S.DigestSink.answered S.DigestSink.wide) (view_in self.old) → IfOk result (λ n. (S.Sink.held sink.new).meaning.total ≡ ((S.Sink.held sink.old).meaning.total + n) % (2 ^ 64)) }
        ensures changes { OnOk result (SomeSettled (view_in self.old) visit.file (view_in self.new)) }
        ensures refused { IfErr result (λ e. VisitRefused (view_in self.old) visit.file e.1) }
        ensures same { OnErr result ((self.new ≡ self.old) × (sink.new ≡ sink.old)) }
        ensures back { IfErr result (λ e. e.0 ≡ visit) }
    {
        if !self.is_taken(visit.file) {
            return Err((visit, CallRefusal::NotTaken));
        }
        let Visit { file: number } = visit;
        let file = self.files.image.file(number).unwrap();
        let decided = self.settle_file(file, self.files.links.get(number), sink);
        self.states.put(number, State::Settled(decided.value));
        Ok(decided.count)
    }

    fn put_back(&mut self, visit: Visit) -> Result<(), (Visit, CallRefusal)>
        ensures puts { PutsBack (view_in self.old) visit.file (told_back result) (view_in self.new) }
        ensures same { OnErr result (self.new ≡ self.old) }
        ensures back { IfErr result (λ e. e.0 ≡ visit) }
    {
        if !self.is_taken(visit.file) {
            return Err((visit, CallRefusal::NotTaken));
        }
        let Visit { file } = visit;
        self.states.put(file, State::Pending);
        Ok(())
    }
}

impl<'a> Checker<'a> {
    // A visit to the file that is chosen; no other visit may be out.
    pub fn take(&mut self) -> Result<Visit, CallRefusal>
        ensures takes { Takes (view_of self.old) (visited result) (view_of self.new) }
        ensures same { OnErr result (self.new ≡ self.old) }
    {
        match &mut self.opened {
            Some(set) => set.take(),
            None => Err(CallRefusal::NotOpened),
        }
    }

    // The file is settled, and the answer is how many bytes are digested for it, by which the sink's total rises; a refusal hands the visit back.
    // What it is settled with is said where all files before were settled with sinks of this kind.
    pub fn settle<S: DigestSink>(
        &mut self,
        visit: Visit,
        sink: &mut S,
    ) -> Result<u64, (Visit, CallRefusal)>
        ensures settles { SoundView (kind_of S.Sink.step S.DigestSink.start S.DigestSink.capacity S.DigestSink.answered S.DigestSink.wide) (view_of self.old) → Settles (kind_of S.Sink.step S.DigestSink.start S.DigestSink.capacity S.DigestSink.answered S.DigestSink.wide) (view_of self.old) visit.file (S.Sink.held sink.old).meaning (told_back result) (view_of self.new) (S.Sink.held sink.new).meaning }
        ensures rise { SoundView (kind_of S.Sink.step S.DigestSink.start S.DigestSink.capacity S.DigestSink.answered S.DigestSink.wide) (view_of self.old) → IfOk result (λ n. (S.Sink.held sink.new).meaning.total ≡ ((S.Sink.held sink.old).meaning.total + n) % (2 ^ 64)) }
        ensures changes { OnOk result (SomeSettled (view_of self.old) visit.file (view_of self.new)) }
        ensures refused { IfErr result (λ e. VisitRefused (view_of self.old) visit.file e.1) }
        ensures same { OnErr result ((self.new ≡ self.old) × (sink.new ≡ sink.old)) }
        ensures back { IfErr result (λ e. e.0 ≡ visit) }
    {
        match &mut self.opened {
            Some(set) => set.settle(visit, sink),
            None => Err((visit, CallRefusal::NotOpened)),
        }
    }

    // The file is pending again; a refusal hands the visit back.
    pub fn put_back(&mut self, visit: Visit) -> Result<(), (Visit, CallRefusal)>
        ensures puts { PutsBack (view_of self.old) visit.file (told_back result) (view_of self.new) }
        ensures same { OnErr result (self.new ≡ self.old) }
        ensures back { IfErr result (λ e. e.0 ≡ visit) }
    {
        match &mut self.opened {
            Some(set) => set.put_back(visit),
            None => Err((visit, CallRefusal::NotOpened)),
        }
    }
}
