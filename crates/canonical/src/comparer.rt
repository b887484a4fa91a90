// A text held against what is written, and the first place where the two differ.
ghost use Rattle.std.specs.Prelude.{◌≡◌, ℕ, List, Ok, Result};
ghost use Rattle.aterm.specs.Grammar.{Tree, signs};
ghost use Rattle.aterm.specs.Files.{derivation, whole, in_derivation};
ghost use Rattle.sink.specs.Write.{steps};
ghost use Rattle.canonical.specs.Kinds.{Means, Apart};
ghost use Rattle.canonical.specs.Meanings.{a_derivation, Meaning, canonical};
ghost use Rattle.canonical.specs.Differences.{FirstDifference, comparing, progress};

use crate::file::write_canonical;
use crate::watcher::{Watch, Watcher};
use aterm::Derivation;

// A text beside what is written.
#[derive(Clone, Copy)]
struct Comparison<'a> {
    text: &'a [u8],
    // Where the text goes on while all is the same, or the first place where it is not.
    at: Result<usize, usize>,
}

// After one more byte.
fn advance(text: &[u8], at: usize, b: u8) -> Result<usize, usize>
    ensures { progress text.now result ≡ comparing (progress text.now (Ok at)) b }
{
    if text.get(at) == Some(&b) {
        Ok(at + 1)
    } else {
        Err(at)
    }
}

impl<'a> Watch for Comparison<'a> {
    ghost step = { comparing };

    ghost state = { λ s. progress s.text.now s.at };

    fn after(self, b: u8) -> Comparison<'a> {
        let text = self.text;
        let at = self.at.and_then(|at| advance(text, at, b));
        Comparison { text, at }
    }
}

// The first place where the text differs from all that was written.
fn difference(text: &[u8], at: Result<usize, usize>) -> Option<usize>
    ensures { (other bytes : List ℕ) → progress other at ≡ steps comparing (progress text.now (Ok 0)) bytes → FirstDifference text.now bytes result }
{
    match at {
        Ok(end) => (end < text.len()).then_some(end),
        Err(place) => Some(place),
    }
}

// The first place where a text differs from the canonical text of what it means; none where it is canonical.
pub fn first_difference(text: &[u8], file: Derivation) -> Option<usize>
    ensures { (at : ℕ) (t : Tree derivation) (m : Meaning) → signs text.now ≡ whole t → in_derivation text.now at file t → Apart a_derivation t → Means a_derivation t m → FirstDifference text.now (canonical m) result }
{
    let mut comparer = Watcher::new(Comparison { text, at: Ok(0) });
    // A watcher refuses only past 2^128 bytes, and no canonical text is so long.
    write_canonical(text, file, &mut comparer).ok()?;
    difference(text, comparer.watching.at)
}
