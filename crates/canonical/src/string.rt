// The strings of a text, by their spans, with escapes resolved as they are read.
ghost use Rattle.std.specs.Prelude.{ℕ, List};
ghost use Rattle.std.specs.Iterator.{AlwaysYields, IsFinite};
ghost use Rattle.sink.specs.Write.{Writes};
ghost use Rattle.canonical.specs.Strings.{escaped, quoted};
ghost use Rattle.canonical.specs.Decode.{said};
ghost use Rattle.canonical.specs.Order.{Compared};

use aterm::Span;
use sink::{Full, Sink};
use std::cmp::Ordering;

// The byte order of what two strings mean. It is no `Ord` of spans, whose `cmp` has no place for the text that they stand in.
pub fn compare(text: &[u8], a: Span, b: Span) -> Ordering
    ensures { Compared (said text.now a.start a.«end») (said text.now b.start b.«end») result }
{
    a.meant(text).cmp(b.meant(text))
}

// The byte order of two strings, for such as stand in no text. Public; no code here calls it.
pub fn compare_bytes(a: &[u8], b: &[u8]) -> Ordering
    ensures { Compared a.now b.now result }
{
    a.cmp(b)
}

// A byte of a string, escaped where it has to be.
fn write_byte<S: Sink>(sink: &mut S, b: u8) -> Result<(), Full>
    ensures { Writes S.step (S.held sink.old) (escaped b) result (S.held sink.new) }
{
    match b {
        b'"' => sink.write(b"\\\""),
        b'\\' => sink.write(b"\\\\"),
        b'\n' => sink.write(b"\\n"),
        b'\r' => sink.write(b"\\r"),
        b'\t' => sink.write(b"\\t"),
        _ => sink.write(&[b]),
    }
}

// The canonical text of a string that means these bytes, whatever they come from. The two below stand for it outside, where nothing may be
// asked of an iterator.
fn write_quoted<I: Iterator<Item = u8> + Drop, S: Sink>(bytes: I, sink: &mut S) -> Result<(), Full>
    requires can { I.Iterator.can_next bytes }
    requires finite { IsFinite (I.Iterator.remaining bytes) }
    ensures { (xs : List ℕ) → AlwaysYields I.Iterator.next_gives (λ b. b) bytes xs → Writes S.Sink.step (S.Sink.held sink.old) (quoted xs) result (S.Sink.held sink.new) }
{
    sink.write(b"\"")?;
    for b in bytes {
        write_byte(sink, b)?;
    }
    sink.write(b"\"")
}

// The canonical text of a string.
pub fn write_span<S: Sink>(text: &[u8], span: Span, sink: &mut S) -> Result<(), Full>
    ensures { Writes S.step (S.held sink.old) (quoted (said text.now span.start span.«end»)) result (S.held sink.new) }
{
    write_quoted(span.meant(text), sink)
}

// The canonical text of a string that means these bytes, for one that stands in no text.
pub fn write_string<S: Sink>(bytes: &[u8], sink: &mut S) -> Result<(), Full>
    ensures { Writes S.step (S.held sink.old) (quoted bytes.now) result (S.held sink.new) }
{
    write_quoted(bytes.iter().copied(), sink)
}
