// What can be read out of a text: strings, rows and lists of rows.
ghost use Rattle.std.specs.Prelude.{◌≡◌, ℕ, List};
ghost use Rattle.aterm.specs.Grammar.{Shape, string, list, Tree, opener, write};
ghost use Rattle.aterm.specs.Reads.{Goes, Spans, Each};
ghost use Rattle.aterm.specs.Tables.{rows_of};

use crate::fault::{Cause, Fault};
use crate::reader::Reader;
use crate::rows::{Placed, Rows};

// A value that holds a tree of one shape.
pub trait Shaped {
    ghost shape: { Shape };

    // what a value holds of the text: the strings of a tree, each at its place; the tree's first byte stands before the place
    ghost holds: { List ℕ → ℕ → Self → Tree shape → Type 0 };
}

// A value that is read from its shape of text. Its default fills the room of a table.
pub trait Part: Shaped + Copy + Default {
    // The first byte of such a text.
    fn open() -> u8
        ensures { result ≡ opener Self.shape };

    // Reads what follows the first byte.
    fn rest(reader: &mut Reader<'_>) -> Result<Self, Fault>
        ensures { Goes (write Self.shape) Self.holds reader.old result reader.new };
}

// A string, by its place between its quotes: from `start` up to `end`, escapes as they stand.
#[derive(Clone, Copy, Default)]
pub struct Span {
    pub start: usize,
    pub end: usize,
}

// Whether the byte before is a backslash that escapes the next.
#[derive(Clone, Copy)]
enum Mode {
    Plain,
    Escaped,
}

impl Shaped for Span {
    ghost shape = { string };

    ghost holds = { λ text at v cs. Spans text at v.start v.end cs };
}

impl Part for Span {
    fn open() -> u8 {
        b'"'
    }

    // Compiled apart from the reading of a row, the loop over a string's bytes holds its own variables alone.
    #[inline(never)]
    fn rest(reader: &mut Reader<'_>) -> Result<Span, Fault> {
        let text = reader.text;
        let start = reader.at;
        let mut mode = Mode::Plain;
        for (i, byte) in text[start..].iter().enumerate() {
            match (mode, *byte) {
                (Mode::Plain, b'"') => {
                    let end = start + i;
                    reader.at = end + 1;
                    return Ok(Span { start, end });
                }
                (Mode::Plain, b'\\') => mode = Mode::Escaped,
                (Mode::Plain, _) => {}
                (Mode::Escaped, _) => mode = Mode::Plain,
            }
        }
        Err(Fault {
            place: text.len(),
            cause: Cause::Byte,
        })
    }
}

impl<T: Shaped, const N: usize> Shaped for Rows<T, N> {
    ghost shape = { list N T.shape };

    ghost holds = { λ text at v xs. Each T.shape (T.holds text) at (rows_of v) xs };
}

impl<T: Part, const N: usize> Part for Rows<T, N> {
    fn open() -> u8 {
        b'['
    }

    fn rest(reader: &mut Reader<'_>) -> Result<Rows<T, N>, Fault> {
        let mut rows = Rows::default();
        // No iterator: what comes next is read from the text.
        loop {
            if let Ok(()) = reader.expect(b']') {
                return Ok(rows);
            }
            if rows.len() > 0 {
                reader.expect(b',')?;
            }
            let place = reader.at;
            let value = reader.row::<T>(N - rows.len())?;
            rows.push(Placed { place, value });
        }
    }
}
