// The store path of a string.
ghost use Rattle.right_paths.specs.Pouring.{Short};
ghost use Rattle.right_paths.specs.Worked.{LocatedBy};

use crate::digests::pour;
use crate::hashes::{Counted, Digits};
use sink::{DigestSink, Sink, ToSink};
use store_path::{base32, fold};

// Its digits.
pub fn locate<T: ToSink, S: DigestSink>(what: &T, sink: &mut S) -> Counted<Digits>
    requires { Short (T.ToSink.bytes what.now) }
    ensures { LocatedBy S.Sink.step S.DigestSink.start S.DigestSink.capacity S.DigestSink.answered (S.Sink.held sink.old).meaning (T.ToSink.bytes what.now) result.value.bytes result.count (S.Sink.held sink.new).meaning }
{
    let poured = pour(what, sink);
    let bytes = base32(&fold(&poured.value));
    Counted {
        value: Digits { bytes },
        count: poured.count,
    }
}
