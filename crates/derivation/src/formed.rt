// Question 14: whether rows are well formed.
ghost use Rattle.std.specs.Prelude.{◌≡◌, true, List, Decides};
ghost use Rattle.aterm.specs.Grammar.{Char, raw, meaning};
ghost use Rattle.store_path.specs.Names.{Name, StorePath};
ghost use Rattle.derivation.specs.Asked.{of_outputs, of_inputs, of_strings};
ghost use Rattle.derivation.specs.Questions.{Plain, formed_output, formed_name, formed_input, formed_source};

use crate::ask::{Ask, all_yes};
use aterm::{Input, Output, Placed, Span};
use store_path::{ends_with_drv, is_name, is_store_path};

// Whether there is no backslash; then a string means the bytes that stand there.
fn is_plain(s: &[u8]) -> bool
    ensures plain { Decides result (Plain s.now) }
    ensures means { (cs : List Char) → s.now ≡ raw cs → result ≡ true → meaning cs ≡ raw cs }
{
    !s.contains(&b'\\')
}

// A name without backslash.
fn is_plain_name(s: &[u8]) -> bool
    ensures { Decides result (Plain s.now × Name s.now) }
{
    is_plain(s) && is_name(s)
}

// A store path without backslash.
fn is_plain_path(s: &[u8]) -> bool
    ensures { Decides result (Plain s.now × StorePath s.now) }
{
    is_plain(s) && is_store_path(s)
}

// A row of field 1. What algorithm and hash say is for question 16; here they only have no backslash.
#[derive(Clone, Copy)]
pub struct FormedOutput;

impl Ask<Output> for FormedOutput {
    ghost rows = { of_outputs };

    ghost yes = { λ q ys x. formed_output ys x };

    fn says(&self, text: &[u8], _earlier: &[Placed<Output>], row: &Output) -> bool {
        is_plain_name(row.name.bytes(text))
            && is_plain_path(row.path.bytes(text))
            && is_plain(row.algorithm.bytes(text))
            && is_plain(row.hash.bytes(text))
    }
}

// A name in an input row.
#[derive(Clone, Copy)]
pub struct FormedName;

impl Ask<Span> for FormedName {
    ghost rows = { of_strings };

    ghost yes = { λ q ys x. formed_name ys x };

    fn says(&self, text: &[u8], _earlier: &[Placed<Span>], row: &Span) -> bool {
        is_plain_name(row.bytes(text))
    }
}

// A row of field 2: its path ends in `.drv`.
#[derive(Clone, Copy)]
pub struct FormedInput;

impl Ask<Input> for FormedInput {
    ghost rows = { of_inputs };

    ghost yes = { λ q ys x. formed_input ys x };

    fn says(&self, text: &[u8], _earlier: &[Placed<Input>], row: &Input) -> bool {
        let path = row.path.bytes(text);
        is_plain_path(path)
            && ends_with_drv(path)
            && all_yes(&FormedName, text, row.names.as_slice())
    }
}

// A row of field 3.
#[derive(Clone, Copy)]
pub struct FormedSource;

impl Ask<Span> for FormedSource {
    ghost rows = { of_strings };

    ghost yes = { λ q ys x. formed_source ys x };

    fn says(&self, text: &[u8], _earlier: &[Placed<Span>], row: &Span) -> bool {
        is_plain_path(row.bytes(text))
    }
}
