// A string of the text, as it is meant: without quotes and escapes.
ghost use Rattle.std.specs.Prelude.{◌≡◌, [], Decides};
ghost use Rattle.canonical.specs.Files.{said_in};
ghost use Rattle.right_paths.specs.Views.{said_by};

use aterm::Span;
use sink::{Full, Sink, ToSink};

#[derive(Clone, Copy)]
pub struct Said<'a> {
    pub text: &'a [u8],
    pub span: Span,
}

impl<'a> ToSink for Said<'a> {
    ghost bytes = { λ s. said_by s };

    fn write_to<S: Sink>(&self, sink: &mut S) -> Result<(), Full> {
        for b in self.span.meant(self.text) {
            sink.write(&[b])?;
        }
        Ok(())
    }
}

impl<'a> Said<'a> {
    // The string of the text at this place.
    pub fn new(text: &'a [u8], span: Span) -> Said<'a>
        ensures { (result.text ≡ text.entry) × (result.span ≡ span) }
    {
        Said { text, span }
    }

    // Whether it means nothing.
    pub fn is_blank(self) -> bool
        ensures { Decides result (said_by self.entry ≡ []) }
    {
        self.span.meant(self.text).next().is_none()
    }

    // Whether it means this word.
    pub fn says(self, word: &[u8]) -> bool
        ensures { Decides result (said_by self.entry ≡ word.now) }
    {
        self.span.meant(self.text).eq(word.iter().copied())
    }

    // Whether another string of its text means the same.
    pub fn same(self, other: Span) -> bool
        ensures { Decides result (said_by self.entry ≡ said_in self.entry.text.now other) }
    {
        self.span.meant(self.text).eq(other.meant(self.text))
    }
}
