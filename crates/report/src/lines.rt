// The lines of the report as values.
ghost use Rattle.report.specs.Texts.{line_text, tail_text, refused_text};

use crate::columns::{write_column, write_state};
use crate::percent::percent_of;
use derivation::Told;
use sink::{Full, Sink, ToSink, write_decimal};

// A file's number, and what is told of it where it has a verdict: `K NUMBER LAYER FIELD ROW PLACE`, or `K pending`.
#[derive(Clone, Copy)]
pub struct FileLine {
    pub number: usize,
    pub told: Option<Told>,
}

impl ToSink for FileLine {
    ghost bytes = { λ s. line_text s.number s.told };

    fn write_to<S: Sink>(&self, sink: &mut S) -> Result<(), Full> {
        write_decimal(sink, self.number)?;
        write_state(sink, self.told)?;
        sink.write(b"\n")
    }
}

// How many files there are, and how many are accepted: `FILES ACCEPTED PERCENT`.
#[derive(Clone, Copy)]
pub struct Summary {
    pub files: usize,
    pub accepted: usize,
}

impl ToSink for Summary {
    ghost bytes = { λ s. tail_text s.files s.accepted };

    fn write_to<S: Sink>(&self, sink: &mut S) -> Result<(), Full> {
        write_decimal(sink, self.files)?;
        write_column(sink, self.accepted)?;
        write_column(sink, percent_of(self.files, self.accepted))?;
        sink.write(b"\n")
    }
}

// The number of a refusal, as it is printed, and the slot that it is about: `refused NUMBER SLOT`.
#[derive(Clone, Copy)]
pub struct RefusedLine {
    pub number: u8,
    pub slot: u16,
}

impl ToSink for RefusedLine {
    ghost bytes = { λ s. refused_text s.number s.slot };

    fn write_to<S: Sink>(&self, sink: &mut S) -> Result<(), Full> {
        sink.write(b"refused ")?;
        write_decimal(sink, self.number)?;
        write_column(sink, self.slot)?;
        sink.write(b"\n")
    }
}
