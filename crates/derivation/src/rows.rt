// What the questions 13, 16 and 17 ask of a row.
ghost use Rattle.std.specs.Prelude.{◌≡◌, ◌≢◌, ℕ, ◌-◌, ◌<◌, ◌≤◌, T as Is, ◌⊎◌, List, Decides, MatchOption};
ghost use Rattle.aterm.specs.Grammar.{raw, Tree};
ghost use Rattle.aterm.specs.Reads.{Each};
ghost use Rattle.aterm.specs.Files.{output, in_output};
ghost use Rattle.derivation.specs.Asked.{of_outputs, of_inputs};
ghost use Rattle.derivation.specs.Questions.{named, blank as both_blank, Kind, spelt, digits, Given, FixedFile, hashed, name_length};

use crate::ask::Ask;
use aterm::{Input, Output, Placed};
use store_path::all_in;

// The name of the output that stands for the whole file.
const OUT: &[u8] = b"out";

// The digits of base 16, letters in lower case only.
const HEX: &[u8] = b"0123456789abcdef";

// Whether an input row has a name.
#[derive(Clone, Copy)]
pub struct HasNames;

impl Ask<Input> for HasNames {
    ghost rows = { of_inputs };

    ghost yes = { λ q ys x. named ys x };

    fn says(&self, _text: &[u8], _earlier: &[Placed<Input>], row: &Input) -> bool {
        !row.names.as_slice().is_empty()
    }
}

// Whether both columns are empty, unless the file is fixed.
#[derive(Clone, Copy)]
pub struct EmptyUnlessFixed {
    pub fixed: bool,
}

impl Ask<Output> for EmptyUnlessFixed {
    ghost rows = { of_outputs };

    ghost yes = { λ q ys x. Is q.fixed ⊎ both_blank x };

    fn says(&self, text: &[u8], _earlier: &[Placed<Output>], row: &Output) -> bool {
        let algorithm = row.algorithm.bytes(text);
        let hash = row.hash.bytes(text);
        self.fixed || (algorithm.is_empty() && hash.is_empty())
    }
}

// How many digits a hash of the algorithm has.
fn digits_of(algorithm: &[u8]) -> Option<usize>
    ensures { MatchOption result ((k : Kind) → algorithm.now ≢ spelt k) (λ n. (k : Kind) × (algorithm.now ≡ spelt k) × (n ≡ digits k)) }
{
    match algorithm {
        b"md5" => Some(32),
        b"sha1" => Some(40),
        b"sha256" => Some(64),
        b"sha512" => Some(128),
        _ => None,
    }
}

// Whether the algorithm is one of four, perhaps after `r:`, and the hash has its number of digits.
fn is_given(algorithm: &[u8], hash: &[u8]) -> bool
    ensures { Decides result (Given algorithm.now hash.now) }
{
    let bare = algorithm.strip_prefix(b"r:").unwrap_or(algorithm);
    digits_of(bare).is_some_and(|count| hash.len() == count && all_in(hash, HEX))
}

// Whether an output is `out`, with a hash.
fn is_hashed(text: &[u8], row: &Output) -> bool
    ensures { (at : ℕ) (x : Tree output) → in_output text.now at row.now x → Decides result (hashed x) }
{
    row.name.bytes(text) == OUT && is_given(row.algorithm.bytes(text), row.hash.bytes(text))
}

// Whether the only output is `out`, with a hash.
pub fn is_fixed(text: &[u8], outputs: &[Placed<Output>]) -> bool
    ensures { (from : ℕ) (xs : List (Tree output)) → Each output (in_output text.now) from outputs.now xs → Decides result (FixedFile xs) }
{
    match outputs {
        [only] => is_hashed(text, &only.value),
        _ => false,
    }
}

// Whether an output's name has at most 211 bytes, after a stem of so many.
#[derive(Clone, Copy)]
pub struct ShortName {
    pub stem: usize,
}

impl Ask<Output> for ShortName {
    ghost rows = { of_outputs };

    ghost yes = { λ q ys x. name_length q.stem (raw x.0) ≤ 211 };

    fn says(&self, text: &[u8], _earlier: &[Placed<Output>], row: &Output) -> bool {
        let name = row.name.bytes(text);
        if name == OUT {
            return self.stem <= 211;
        }
        210usize
            .checked_sub(name.len())
            .is_some_and(|most| self.stem <= most)
    }
}
