// The digest of one string that is written piece by piece.
ghost use Rattle.right_paths.specs.Pouring.{Short, Counts, Pours};

use crate::counting::Counting;
use crate::hashes::Counted;
use sink::{DigestSink, Full, Sink, ToSink};

// Writes a string and answers its length. Not report's `measure`, which writes to a counter alone: a string would be written twice.
fn write_counted<T: ToSink, S: Sink>(what: &T, sink: &mut S) -> Result<u64, Full>
    ensures { Counts S.Sink.step (S.Sink.held sink.old).meaning (T.ToSink.bytes what.now) result (S.Sink.held sink.new).meaning }
{
    let mut counting = Counting::new(sink);
    what.write_to(&mut counting)?;
    Ok(counting.count())
}

// Begins the sink, writes a string that every digest sink takes, and answers its digest.
// The string and the sink are lent by two owners, and handed on once. The four members of a digest sink stand in the clause one by
// one: the definitions take them as values, for the crates above state them of sinks that no type parameter names.
pub fn pour<T: ToSink, S: DigestSink>(what: &T, sink: &mut S) -> Counted<[u8; 32]>
    requires { Short (T.ToSink.bytes what.now) }
    ensures { Pours S.Sink.step S.DigestSink.start S.DigestSink.capacity S.DigestSink.answered (S.Sink.held sink.old).meaning (T.ToSink.bytes what.now) result.value result.count (S.Sink.held sink.new).meaning }
{
    sink.begin();
    // Not reached: every digest sink takes so short a string.
    let count = write_counted(what, sink).unwrap();
    Counted {
        value: sink.answer(),
        count,
    }
}
