// A layer over any digest sink.
ghost use Rattle.std.specs.Prelude.{◌≡◌, drop};
ghost use Rattle.recorder.specs.Holding.{holding};
ghost use Rattle.recorder.specs.Record.{recorded, recording, recorded_start, recorded_answer, zeros, SameDigest, Kept, TakenKept};
ghost use Rattle.sink.specs.Digest.{Begins};

use crate::table::Table;
use sink::{DigestSink, Full, Sink};

// Keeps the first 4,096 bytes since begin, and counts them all.
#[derive(Drop)]
pub struct Recorder<S: DigestSink> {
    table: Table,
    below: S,
}

impl<S: DigestSink> Sink for Recorder<S> {
    ghost step = { recording 4096 S.Sink.step };

    ghost held = { holding S.Sink.held };

    ghost wraps = { λ s. S.Sink.wraps s.below };

    fn write(&mut self, bytes: &[u8]) -> Result<(), Full> {
        self.below.write(bytes)?;
        self.table.keep(bytes);
        Ok(())
    }
}

impl<S: DigestSink> DigestSink for Recorder<S> {
    ghost start = { recorded_start S.DigestSink.start };

    ghost capacity = { S.DigestSink.capacity };

    ghost answered = { recorded_answer S.DigestSink.answered };

    ghost wide = { λ s. S.DigestSink.wide (drop 4097 s) };

    // Besides what every digest sink promises: the digest of a string is that of the sink below.
    fn begin(&mut self)
        ensures begins { Begins (recorded_start S.DigestSink.start) S.DigestSink.capacity (holding S.Sink.held self.old).meaning (holding S.Sink.held self.new).meaning }
        ensures below { SameDigest S.Sink.step S.DigestSink.start S.DigestSink.answered }
    {
        self.below.begin();
        self.table = Table::default();
    }

    fn answer(&self) -> [u8; 32] {
        self.below.answer()
    }
}

impl<S: DigestSink> Recorder<S> {
    pub fn new(below: S) -> Recorder<S>
        ensures begun { (result.table.count ≡ 0) × (result.table.bytes ≡ zeros 4096) × (result.below ≡ below) }
        ensures holds { holding S.Sink.held result ≡ recorded 0 (zeros 4096) (S.Sink.held below) }
    {
        Recorder {
            table: Table::default(),
            below,
        }
    }

    // Copies the kept bytes to the front of `out` and answers their number; where `out` is short it is left as it was.
    pub fn kept(&self, out: &mut [u8]) -> Result<usize, Full>
        ensures state { Kept (holding S.Sink.held self.now).meaning.state out.old result out.new }
        ensures taken { TakenKept S.Sink.step (holding S.Sink.held self.now).meaning.state out.old result out.new }
    {
        self.table.copy_to(out)
    }
}
