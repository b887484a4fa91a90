// Whether a file owns the outputs that an input row of another wants of it.
ghost use Rattle.std.specs.Prelude.{ℕ, List, Decides, option_copied};
ghost use Rattle.std.specs.List.{AllByRecursion};
ghost use Rattle.aterm.specs.Files.{output as output_shape};
ghost use Rattle.aterm.specs.Grammar.{Tree, string, raw};
ghost use Rattle.aterm.specs.Meaning.{cut};
ghost use Rattle.hash_modulo.specs.Sets.{Bytes};
ghost use Rattle.links.specs.Owners.{OwnsOutput, NameOwned, NamesAre, NamesKept, OutputsAre, Stands, OwnedBy};

use crate::output_names::OutputNames;
use aterm::{Placed, Span};

// Whether one of the outputs, of a text of their own, has this name.
// A text and rows of it stay two parameters: both pairs are handed on once, from `is_owned`, and a struct of them would serve two functions.
fn has_output(owner: &[u8], outputs: &OutputNames, text: &[u8], name: Span) -> bool
    ensures { NameOwned owner.now outputs.now (cut text.now name.start name.«end») result }
{
    let name = name.bytes(text);
    outputs
        .as_slice()
        .iter()
        .any(|output| output.bytes(owner) == name)
}

// Whether they have each of the names.
fn has_outputs(owner: &[u8], outputs: &OutputNames, text: &[u8], names: &[Placed<Span>]) -> bool
    ensures { (os : List (Tree output_shape)) (ns : List (Tree string)) → OutputsAre owner.now outputs.now os → NamesAre text.now names.now ns → Decides result (AllByRecursion (λ n. OwnsOutput os (raw n)) ns) }
{
    names
        .iter()
        .all(|name| has_output(owner, outputs, text, name.value))
}

// Whether a file owns the outputs named, by its text and what is kept of it; yes if it does not read.
pub fn is_owned(
    owner: &[u8],
    kept: Option<&OutputNames>,
    text: &[u8],
    names: &[Placed<Span>],
) -> bool
    ensures { (img path : Bytes) (n number : ℕ) → Stands img n number path owner.now → NamesKept path owner.now (option_copied kept.entry) → OwnedBy img n number text.now names.now result }
{
    match kept {
        Some(outputs) => has_outputs(owner, outputs, text, names),
        None => true,
    }
}
