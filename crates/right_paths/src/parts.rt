// The parts of which longer strings are made.
ghost use Rattle.std.specs.Prelude.{◌++◌};
ghost use Rattle.sink.specs.Numerals.{hex};

use sink::{Full, Sink, ToSink, write_hex};

// Bytes as they stand.
#[derive(Clone, Copy)]
pub struct Word<'a> {
    pub bytes: &'a [u8],
}

impl<'a> ToSink for Word<'a> {
    ghost bytes = { λ s. s.bytes.now };

    fn write_to<S: Sink>(&self, sink: &mut S) -> Result<(), Full> {
        sink.write(self.bytes)
    }
}

// A digest in base 16, for a sink. Not test_input's `Hex`, which is for `fmt`.
#[derive(Clone, Copy)]
pub struct Hex {
    pub digest: [u8; 32],
}

impl ToSink for Hex {
    ghost bytes = { λ s. hex s.digest };

    fn write_to<S: Sink>(&self, sink: &mut S) -> Result<(), Full> {
        write_hex(sink, &self.digest)
    }
}

// One string and then another.
#[derive(Clone, Copy)]
pub struct Joined<A, B> {
    pub first: A,
    pub rest: B,
}

impl<A: ToSink, B: ToSink> ToSink for Joined<A, B> {
    ghost bytes = { λ s. A.ToSink.bytes s.first ++ B.ToSink.bytes s.rest };

    fn write_to<S: Sink>(&self, sink: &mut S) -> Result<(), Full> {
        self.first.write_to(sink)?;
        self.rest.write_to(sink)
    }
}
