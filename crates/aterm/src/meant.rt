// The bytes that a string means, with its escapes resolved.
ghost use Rattle.std.specs.Prelude.{◌≡◌};
ghost use Rattle.std.specs.Iterator.{YieldsFirst, item_count};
ghost use Rattle.aterm.specs.Grammar.{escape as escaped_byte};
ghost use Rattle.aterm.specs.Meaning.{cut, meant_left};

use crate::part::Span;

// Goes through a string byte by byte, as it is meant.
#[derive(Clone, Copy)]
pub struct Meant<'a> {
    rest: &'a [u8],
}

impl<'a> Meant<'a> {
    // The bytes are those between a string's quotes.
    pub fn new(bytes: &'a [u8]) -> Meant<'a>
        ensures { result.rest.now ≡ bytes.now }
    {
        Meant { rest: bytes }
    }
}

impl Span {
    // The bytes of the string as they stand. A span that reaches past the text ends with it.
    pub fn bytes<'a>(self, text: &'a [u8]) -> &'a [u8]
        ensures { result.now ≡ cut text.now self.start self.«end» }
    {
        let end = self.end.min(text.len());
        let start = self.start.min(end);
        &text[start..end]
    }

    // The bytes that the string means.
    pub fn meant<'a>(self, text: &'a [u8]) -> Meant<'a>
        ensures { result.rest.now ≡ cut text.now self.start self.«end» }
    {
        Meant::new(self.bytes(text))
    }
}

// The byte that is meant by a backslash and `c`.
fn escape(c: u8) -> u8
    ensures { result ≡ escaped_byte c }
{
    match c {
        b'n' => b'\n',
        b'r' => b'\r',
        b't' => b'\t',
        _ => c,
    }
}

impl<'a> Iterator for Meant<'a> {
    type Item = u8;

    ghost next_gives = { YieldsFirst meant_left };

    ghost remaining = { item_count meant_left };

    fn next(&mut self) -> Option<u8> {
        let (first, after) = self.rest.split_first()?;
        self.rest = after;
        if *first != b'\\' {
            return Some(*first);
        }
        let (second, beyond) = self.rest.split_first()?;
        self.rest = beyond;
        Some(escape(*second))
    }
}
