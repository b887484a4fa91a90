// The report of an image.
ghost use Rattle.std.specs.Prelude.{◌≡◌, ℕ};
ghost use Rattle.image.specs.Opening.{Opens, Refused};
ghost use Rattle.image.specs.declared.refusal.Refusal.{Refusal};
ghost use Rattle.sink.specs.Write.{Writes};
ghost use Rattle.checker.specs.Reports.{call_at, report_calls, report_text, verdict_in, verdicts_in, AllDigested, Reported};
ghost use Rattle.checker.specs.Settling.{kind_of};

use crate::call::{Answer, Call, Offer};
use crate::checker::running::run;
use report::{FileLine, RefusedLine, Summary};
use sink::{DigestSink, Full, Sink, ToSink};
use std::array;
use verdict::{Fault, tell_verdict};

// The call at this place: 256 rounds of a take and a settle of what it took, and then the verdicts of the files.
fn call_at(place: usize) -> Call
    ensures { result ≡ call_at place }
{
    if place >= 512 {
        return Call::Verdict(place - 511);
    }
    if place % 2 == 0 {
        Call::Take
    } else {
        Call::Settle(Offer::LastTaken)
    }
}

// As many rounds as an image has files at most settle every file; the rounds past that are refused, and do nothing.
fn calls() -> [Call; 768]
    ensures { result ≡ report_calls }
{
    array::from_fn(|place| call_at(place))
}

// The verdict that an answer tells, if it tells one.
fn verdict_in(answer: Option<Answer>) -> Option<Result<(), Fault>>
    ensures { result ≡ verdict_in answer }
{
    match answer {
        Some(Answer::Verdict(Ok(told))) => told,
        _ => None,
    }
}

// The line of each file as far as the answers tell verdicts, and then the last line.
fn write_lines<S: Sink>(answers: &[Option<Answer>], out: &mut S) -> Result<(), Full>
    ensures { Writes S.step (S.held out.old) (report_text (verdicts_in answers.now)) result (S.held out.new) }
{
    let mut files = 0;
    let mut accepted = 0;
    for answer in answers {
        let Some(verdict) = verdict_in(*answer) else {
            break;
        };
        files += 1;
        if verdict.is_ok() {
            accepted += 1;
        }
        let told = Some(tell_verdict(verdict));
        FileLine {
            number: files,
            told,
        }
        .write_to(out)?;
    }
    Summary { files, accepted }.write_to(out)
}

// The report of an image to any sink, with any digest sink: the line of its refusal, or a line a file and then the last line.
// Where the image is refused, the digest sink stays as it was; where it opens, its total rises by what is digested for each file once.
pub fn report<D: DigestSink, S: Sink>(bytes: &[u8], digest: &mut D, out: &mut S) -> Result<(), Full>
    ensures told { Reported S.Sink.step (S.Sink.held out.old) (kind_of D.Sink.step D.DigestSink.start D.DigestSink.capacity D.DigestSink.answered D.DigestSink.wide) bytes.now result (S.Sink.held out.new) }
    ensures digested { (n : ℕ) → Opens bytes.now n → AllDigested (kind_of D.Sink.step D.DigestSink.start D.DigestSink.capacity D.DigestSink.answered D.DigestSink.wide) bytes.now n (D.Sink.held digest.old).meaning (D.Sink.held digest.new).meaning }
    ensures kept { (e : Refusal) → Refused bytes.now e → digest.new ≡ digest.old }
{
    let calls = calls();
    let mut answers = [None; 768];
    let ran = run(bytes, digest, &mut [], &calls, &mut answers);
    match ran.opened {
        // the answers before these are those of the rounds
        Ok(()) => write_lines(&answers[512..], out),
        Err(refusal) => RefusedLine {
            number: refusal.number(),
            slot: refusal.slot(),
        }
        .write_to(out),
    }
}
