// Question 15: the keys of rows, and whether a row repeats one.
ghost use Rattle.std.specs.Prelude.{◌≡◌, ℕ, Decides};
ghost use Rattle.aterm.specs.Grammar.{Tree, meaning};
ghost use Rattle.aterm.specs.Meaning.{meant_left};
ghost use Rattle.derivation.specs.Keys.{KeyOf, key_of};
ghost use Rattle.derivation.specs.Asked.{of_inputs};
ghost use Rattle.derivation.specs.Questions.{fresh, different_input};

use crate::ask::{Ask, all_yes};
use aterm::{Input, Meant, Output, Placed, Shaped, Span, Variable};

// A row that has a key.
pub trait Keyed: Shaped {
    fn key(&self) -> Span
        ensures { KeyOf Self.shape Self.holds (key_of Self.shape) self.now result.start result.end };
}

impl Keyed for Output {
    fn key(&self) -> Span {
        self.name
    }
}

impl Keyed for Input {
    fn key(&self) -> Span {
        self.path
    }
}

impl Keyed for Span {
    fn key(&self) -> Span {
        *self
    }
}

impl Keyed for Variable {
    fn key(&self) -> Span {
        self.name
    }
}

// Whether a row's key means what is left of `key`.
fn has_key<T: Keyed>(text: &[u8], row: &T, key: Meant<'_>) -> bool
    ensures { (at : ℕ) (x : Tree T.shape) → T.holds text.now at row.now x → Decides result (meaning (key_of T.shape x) ≡ meant_left key.entry) }
{
    row.key().meant(text).eq(key)
}

// Whether no row before has the key of this one, by what the keys mean.
#[derive(Clone, Copy)]
pub struct Fresh;

impl<T: Keyed> Ask<T> for Fresh {
    ghost rows = { record { shape = T.shape; holds = T.holds } };

    ghost yes = { λ q ys x. fresh (key_of T.shape) ys x };

    fn says(&self, text: &[u8], earlier: &[Placed<T>], row: &T) -> bool {
        let mine = row.key().meant(text);
        !earlier.iter().any(|y| has_key(text, &y.value, mine))
    }
}

// The same of an input row, and of the names in it.
#[derive(Clone, Copy)]
pub struct FreshInput;

impl Ask<Input> for FreshInput {
    ghost rows = { of_inputs };

    ghost yes = { λ q ys x. different_input ys x };

    fn says(&self, text: &[u8], earlier: &[Placed<Input>], row: &Input) -> bool {
        Fresh.says(text, earlier, row) && all_yes(&Fresh, text, row.names.as_slice())
    }
}
