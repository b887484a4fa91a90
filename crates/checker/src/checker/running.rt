// A list of calls over one checker, one sink and one buffer.
ghost use Rattle.std.specs.Prelude.{◌≡◌, ◌+◌, min, OnErr};
ghost use Rattle.checker.specs.Calls.{Takes, Settles, PutsBack};
ghost use Rattle.checker.specs.Events.{took};
ghost use Rattle.checker.specs.Playing.{offered, last_taken, Played, RunDone, Turned};
ghost use Rattle.checker.specs.Soundness.{SoundView};
ghost use Rattle.checker.specs.Seen.{view_of};
ghost use Rattle.checker.specs.Settling.{kind_of};
ghost use Rattle.checker.specs.Theorem.{MainTheorem};

use super::{Checker, Visit};
use crate::call::{Answer, Call, Offer, Ran, Window};
use crate::refused::CallRefusal;
use sink::DigestSink;
use std::ops::Range;

impl Window {
    // Where the window lies in a buffer of this length, to which it is cut.
    fn range(self, len: usize) -> Range<usize>
        ensures { result ≡ record { start = min self.from len; «end» = min (self.from + self.size) len } }
    {
        self.from.min(len)..self.from.saturating_add(self.size).min(len)
    }
}

impl Offer {
    // The file to which the visit is offered, where `last` was taken last.
    fn file(self, last: usize) -> usize
        ensures { result ≡ offered last self }
    {
        match self {
            Offer::LastTaken => last,
            Offer::File(file) => file,
        }
    }
}

// Why a visit was handed back; it is taken apart, since its file was not taken here.
fn refusal_of(back: (Visit, CallRefusal)) -> CallRefusal
    ensures { result ≡ back.1 }
{
    let (Visit { file: _ }, refusal) = back;
    refusal
}

impl<'a> Checker<'a> {
    // The number of the file that is taken, which then is the last one.
    fn take_next(&mut self, last: &mut usize) -> Result<usize, CallRefusal>
        ensures takes { Takes (view_of self.old) result (view_of self.new) }
        ensures same { OnErr result (self.new ≡ self.old) }
        ensures taken_last { last.new ≡ last_taken last.old (took result) }
    {
        let Visit { file } = self.take()?;
        *last = file;
        Ok(file)
    }

    // Settles a visit to this file.
    fn settle_at<S: DigestSink>(&mut self, file: usize, sink: &mut S) -> Result<u64, CallRefusal>
        ensures settles { SoundView (kind_of S.Sink.step S.DigestSink.start S.DigestSink.capacity S.DigestSink.answered S.DigestSink.wide) (view_of self.old) → Settles (kind_of S.Sink.step S.DigestSink.start S.DigestSink.capacity S.DigestSink.answered S.DigestSink.wide) (view_of self.old) file (S.Sink.held sink.old).meaning result (view_of self.new) (S.Sink.held sink.new).meaning }
        ensures same { OnErr result ((self.new ≡ self.old) × (sink.new ≡ sink.old)) }
    {
        self.settle(Visit { file }, sink).map_err(refusal_of)
    }

    // Puts a visit to this file back.
    fn put_back_at(&mut self, file: usize) -> Result<(), CallRefusal>
        ensures puts { PutsBack (view_of self.old) file result (view_of self.new) }
        ensures same { OnErr result (self.new ≡ self.old) }
    {
        self.put_back(Visit { file }).map_err(refusal_of)
    }

    // One call.
    fn turn<S: DigestSink>(
        &mut self,
        call: Call,
        last: &mut usize,
        sink: &mut S,
        buffer: &mut [u8],
    ) -> Answer
        ensures { SoundView (kind_of S.Sink.step S.DigestSink.start S.DigestSink.capacity S.DigestSink.answered S.DigestSink.wide) (view_of self.old) → Turned S.Sink.held (kind_of S.Sink.step S.DigestSink.start S.DigestSink.capacity S.DigestSink.answered S.DigestSink.wide) last.old call result (record { checker = self.old; sink = sink.old; buffer = buffer.old }) last.new (record { checker = self.new; sink = sink.new; buffer = buffer.new }) }
    {
        match call {
            Call::Take => Answer::Taken(self.take_next(last)),
            Call::Settle(offer) => Answer::Settled(self.settle_at(offer.file(*last), sink)),
            Call::PutBack(offer) => Answer::PutBack(self.put_back_at(offer.file(*last))),
            Call::Verdict(file) => Answer::Verdict(self.verdict(file)),
            Call::Path(file, j, window) => {
                let range = window.range(buffer.len());
                Answer::Written(self.path(file, j, &mut buffer[range], sink))
            }
            Call::Rewrite(file, window) => {
                let range = window.range(buffer.len());
                Answer::Written(self.rewrite(file, &mut buffer[range]))
            }
            Call::Circle => Answer::Circle(self.circle()),
            Call::Line(file, window) => {
                let range = window.range(buffer.len());
                Answer::Written(self.line(file, &mut buffer[range]))
            }
            Call::Tail(window) => {
                let range = window.range(buffer.len());
                Answer::Written(self.tail(&mut buffer[range]))
            }
        }
    }

    // As many of the calls as there is room for answers, from a checker in which no file was taken. It answers how many.
    fn play<S: DigestSink>(
        &mut self,
        sink: &mut S,
        buffer: &mut [u8],
        calls: &[Call],
        answers: &mut [Option<Answer>],
    ) -> usize
        ensures { SoundView (kind_of S.Sink.step S.DigestSink.start S.DigestSink.capacity S.DigestSink.answered S.DigestSink.wide) (view_of self.old) → Played S.Sink.held (kind_of S.Sink.step S.DigestSink.start S.DigestSink.capacity S.DigestSink.answered S.DigestSink.wide) calls.now answers.old (record { checker = self.old; sink = sink.old; buffer = buffer.old }) result answers.new (record { checker = self.new; sink = sink.new; buffer = buffer.new }) }
    {
        let count = calls.len().min(answers.len());
        let mut last = 0;
        for i in 0..count {
            answers[i] = Some(self.turn(calls[i], &mut last, sink, buffer));
        }
        count
    }
}

// A list of calls over one checker, which opens the image, one sink and one buffer: as many as there is room for answers.
// Where the image does not open, each call is refused.
pub fn run<S: DigestSink>(
    bytes: &[u8],
    sink: &mut S,
    buffer: &mut [u8],
    calls: &[Call],
    answers: &mut [Option<Answer>],
) -> Ran
    ensures done { RunDone S.Sink.held (kind_of S.Sink.step S.DigestSink.start S.DigestSink.capacity S.DigestSink.answered S.DigestSink.wide) bytes.now calls.now answers.old sink.old buffer.old result answers.new sink.new buffer.new }
    ensures theorem { MainTheorem }
{
    let mut checker = Checker::new();
    let opened = checker.open(bytes);
    let count = checker.play(sink, buffer, calls, answers);
    Ran { opened, count }
}
