// The references of a file, and the kind of its own path, which has them: `text` and each reference.
ghost use Rattle.std.specs.Prelude.{◌≡◌, [], ◌∷◌, MatchOption};
ghost use Rattle.std.specs.Iterator.{YieldsFirstBy, item_count};
ghost use Rattle.canonical.specs.Files.{said_in};
ghost use Rattle.hash_modulo.specs.Paths.{own_type};
ghost use Rattle.right_paths.specs.References.{references_of, references_in, references_left};
ghost use Rattle.right_paths.specs.Views.{said_by, file_by};

use crate::file::SortedFile;
use crate::parts::{Joined, Word};
use crate::said::Said;
use aterm::{Input, Placed, Span};
use canonical::compare;
use sink::{Full, Sink, ToSink};
use std::cmp::Ordering;

// The paths of some inputs and some sources: a merge, for both tables rise.
#[derive(Clone, Copy)]
pub struct References<'a> {
    text: &'a [u8],
    inputs: &'a [Placed<Input>],
    sources: &'a [Placed<Span>],
}

impl<'a> References<'a> {
    // Those of the same text in these inputs and sources.
    fn left(self, inputs: &'a [Placed<Input>], sources: &'a [Placed<Span>]) -> References<'a>
        ensures { references_left result ≡ references_in self.entry.text.now inputs.now sources.now }
    {
        References {
            inputs,
            sources,
            ..self
        }
    }

    // The first reference, and those after it.
    fn step(self) -> Option<(Span, References<'a>)>
        ensures { MatchOption result
            (references_left self.entry ≡ [])
            (λ x. references_left self.entry ≡ said_in self.entry.text.now x.0 ∷ references_left x.1) }
    {
        match (self.inputs.split_first(), self.sources.split_first()) {
            (None, None) => None,
            (Some((input, more)), None) => Some((input.value.path, self.left(more, self.sources))),
            (None, Some((source, others))) => Some((source.value, self.left(self.inputs, others))),
            (Some((input, more)), Some((source, others))) => {
                match compare(self.text, input.value.path, source.value) {
                    Ordering::Less => Some((input.value.path, self.left(more, self.sources))),
                    Ordering::Equal => Some((input.value.path, self.left(more, others))),
                    Ordering::Greater => Some((source.value, self.left(self.inputs, others))),
                }
            }
        }
    }
}

impl<'a> Iterator for References<'a> {
    type Item = Said<'a>;

    ghost next_gives = { YieldsFirstBy said_by references_left };

    ghost remaining = { item_count references_left };

    fn next(&mut self) -> Option<Said<'a>> {
        let text = self.text;
        let (span, rest) = self.step()?;
        *self = rest;
        Some(Said::new(text, span))
    }
}

// `text`, and `:` and its path for each reference.
#[derive(Clone, Copy)]
pub struct OwnKind<'a> {
    pub of: SortedFile<'a>,
}

impl<'a> ToSink for OwnKind<'a> {
    ghost bytes = { λ s. own_type (references_of (file_by s.of)) };

    fn write_to<S: Sink>(&self, sink: &mut S) -> Result<(), Full> {
        let references = References {
            text: self.of.text,
            inputs: self.of.file.inputs.as_slice(),
            sources: self.of.file.sources.as_slice(),
        };
        sink.write(b"text")?;
        for path in references {
            let part = Joined {
                first: Word { bytes: b":" },
                rest: path,
            };
            part.write_to(sink)?;
        }
        Ok(())
    }
}
