// Rows of a derivation: what they mean, their keys, and their canonical text.
ghost use Rattle.std.specs.Prelude.{ℕ, List, [], ◌∷◌, ◌++◌, map};
ghost use Rattle.std.specs.List.{flat_map};
ghost use Rattle.sink.specs.Write.{Writes};
ghost use Rattle.aterm.specs.Tables.{rows_of};
ghost use Rattle.canonical.specs.Decode.{said};
ghost use Rattle.canonical.specs.Order.{Compared};
ghost use Rattle.canonical.specs.Kinds.{Kind, text as string_kind, rising, Value, key, canon, comma, listing, Arranges};

use crate::sort::sort_rows;
use crate::string::{compare, write_span};
use aterm::{Placed, Rows, Span};
use sink::{Full, Sink};
use std::cmp::Ordering;

// Text and value stay two parameters in this crate: a row's columns are values of their own beside the one text, so a struct of both would
// be made anew at each of them.
pub trait Canon: Copy {
    ghost kind: { Kind };

    // what a value means beside a text, with its rows in the order in which it has them
    ghost value: { List ℕ → Self → Value kind };

    // The order of two rows, by what their keys mean. It is no `Ord`, whose `cmp` has no place for the text, and goes by no span, as the
    // keys in `derivation` are: the key of an input row may be a hash, which stands in no text.
    fn order(&self, text: &[u8], other: &Self) -> Ordering
        ensures { Compared (key kind (value text.now self.now)) (key kind (value text.now other.now)) result };

    // The value with the rows of each map and set sorted.
    fn arranged(self, text: &[u8]) -> Self
        ensures { Arranges kind (value text.now self) (value text.now result) };

    // Writes the rows in the order in which the value has them.
    // Text and sink stay two parameters: a struct of both would be lent to be changed, and each clause would have to say that its text stays.
    fn write_text<S: Sink>(&self, text: &[u8], sink: &mut S) -> Result<(), Full>
        ensures { Writes S.Sink.step (S.Sink.held sink.old) (canon kind (value text.now self.now)) result (S.Sink.held sink.new) };
}

impl Canon for Span {
    ghost kind = { string_kind };

    ghost value = { λ t v. said t v.start v.«end» };

    fn order(&self, text: &[u8], other: &Span) -> Ordering {
        compare(text, *self, *other)
    }

    fn arranged(self, _text: &[u8]) -> Span {
        self
    }

    fn write_text<S: Sink>(&self, text: &[u8], sink: &mut S) -> Result<(), Full> {
        write_span(text, *self, sink)
    }
}

// A row's place says nothing of what it means.
impl<T: Canon> Canon for Placed<T> {
    ghost kind = { T.Canon.kind };

    ghost value = { λ t v. T.Canon.value t v.value };

    fn order(&self, text: &[u8], other: &Placed<T>) -> Ordering {
        self.value.order(text, &other.value)
    }

    fn arranged(self, text: &[u8]) -> Placed<T> {
        Placed {
            value: self.value.arranged(text),
            ..self
        }
    }

    fn write_text<S: Sink>(&self, text: &[u8], sink: &mut S) -> Result<(), Full> {
        self.value.write_text(text, sink)
    }
}

// A part of the text after the bytes before it.
pub fn write_field<T: Canon, S: Sink>(
    text: &[u8],
    before: &[u8],
    field: &T,
    sink: &mut S,
) -> Result<(), Full>
    ensures { Writes S.Sink.step (S.Sink.held sink.old) (before.now ++ canon T.Canon.kind (T.Canon.value text.now field.now)) result (S.Sink.held sink.new) }
{
    sink.write(before)?;
    field.write_text(text, sink)
}

// A column or a row after the byte before it.
pub fn write_after<T: Canon, S: Sink>(
    text: &[u8],
    before: u8,
    part: &T,
    sink: &mut S,
) -> Result<(), Full>
    ensures { Writes S.Sink.step (S.Sink.held sink.old) (before ∷ canon T.Canon.kind (T.Canon.value text.now part.now)) result (S.Sink.held sink.new) }
{
    write_field(text, &[before], part, sink)
}

// Rows, each after a comma.
fn write_rests<T: Canon, S: Sink>(text: &[u8], rows: &[T], sink: &mut S) -> Result<(), Full>
    ensures { Writes S.Sink.step (S.Sink.held sink.old) (flat_map (comma (λ v. canon T.Canon.kind (T.Canon.value text.now v))) rows.now) result (S.Sink.held sink.new) }
{
    for row in rows {
        write_after(text, b',', row, sink)?;
    }
    Ok(())
}

// Rows parted by commas, between brackets.
pub fn write_rows<T: Canon, S: Sink>(text: &[u8], rows: &[T], sink: &mut S) -> Result<(), Full>
    ensures { Writes S.Sink.step (S.Sink.held sink.old) (listing (canon T.Canon.kind) (map (T.Canon.value text.now) rows.now)) result (S.Sink.held sink.new) }
{
    match rows.split_first() {
        None => sink.write(b"[]"),
        Some((first, rest)) => {
            sink.write(b"[")?;
            first.write_text(text, sink)?;
            write_rests(text, rest, sink)?;
            sink.write(b"]")
        }
    }
}

// Arranges each row, and sorts them. By places, in place: a short file is written in two thirds of the time that a table made anew by `Rows::map` takes.
fn arrange<T: Canon>(text: &[u8], rows: &mut [T])
    ensures { (n : ℕ) → Arranges (rising n T.Canon.kind) (map (T.Canon.value text.now) rows.old) (map (T.Canon.value text.now) rows.new) }
{
    for i in 0..rows.len() {
        let row = rows[i];
        let arranged = row.arranged(text);
        rows[i] = arranged;
    }
    sort_rows(text, rows);
}

impl<T: Canon, const N: usize> Canon for Rows<T, N> {
    ghost kind = { rising N T.Canon.kind };

    ghost value = { λ t v. map (λ p. T.Canon.value t p.value) (rows_of v) };

    // A table has no key.
    fn order(&self, _text: &[u8], _other: &Rows<T, N>) -> Ordering {
        Ordering::Equal
    }

    fn arranged(self, text: &[u8]) -> Rows<T, N> {
        let Rows { mut items, len } = self;
        arrange(text, &mut items[..len]);
        Rows { items, len }
    }

    fn write_text<S: Sink>(&self, text: &[u8], sink: &mut S) -> Result<(), Full> {
        write_rows(text, self.as_slice(), sink)
    }
}
