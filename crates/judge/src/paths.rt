// Questions 21 to 24 in their order.
ghost use Rattle.std.specs.Prelude.{◌≡◌, Decides};
ghost use Rattle.aterm.specs.Files.{derivation, whole};
ghost use Rattle.aterm.specs.Grammar.{Tree, signs};
ghost use Rattle.canonical.specs.Files.{derivation_value};
ghost use Rattle.hash_modulo.specs.Hashes.{Digest};
ghost use Rattle.hash_modulo.specs.Paths.{file_name};
ghost use Rattle.hash_modulo.specs.Sets.{Bytes};
ghost use Rattle.right_paths.specs.Worked.{full_store_path, RightDigits};
ghost use Rattle.store_path.specs.Names.{StorePath};
ghost use Rattle.verdict.specs.Judged.{PathsJudged};
ghost use Rattle.judge.specs.Judgeable.{Judgeable};

use crate::right_outputs::RightOutputs;
use aterm::Derivation;
use canonical::first_difference;
use right_paths::{Digits, SortedFile};
use store_path::take_apart;
use verdict::Fault;

// 21: whether the file's own path is the one with these digits. Its name is right whatever it is.
fn is_own(path: &[u8], own: &Digits) -> bool
    requires { StorePath path.now }
    ensures { Decides result (path.now ≡ full_store_path own.now.bytes (file_name path.now)) }
{
    take_apart(path).is_some_and(|parts| parts.digits == &own.bytes[..])
}

// Questions 21 to 24: the file's own path, its outputs' paths, their environment rows, and whether the text is canonical. `file` is as
// the text was read, and `sorted` has its rows sorted.
pub fn judge_paths<'a>(
    file: &Derivation,
    sorted: SortedFile<'a>,
    own: &Digits,
    outputs: &'a [Digits; 16],
) -> Result<(), Fault>
    requires { Judgeable sorted.path.now sorted.text.now file.now sorted.file.now }
    ensures { (d : Digest) (g : Bytes → Bytes) (x : Tree derivation) → signs sorted.entry.text.now ≡ whole x → RightDigits d sorted.entry.path.now g (derivation_value sorted.entry.text.now sorted.entry.file.now) own.now.bytes outputs.now → PathsJudged d sorted.entry.path.now sorted.entry.text.now x g (derivation_value sorted.entry.text.now sorted.entry.file.now) result }
{
    if !is_own(sorted.path, own) {
        return Err(Fault::WrongPath);
    }
    let right = RightOutputs {
        of: sorted,
        digits: outputs,
    };
    let rows = file.outputs.as_slice();
    if let Some(spot) = right.first_wrong_output(rows) {
        return Err(Fault::WrongOutput(spot));
    }
    if let Some(spot) = right.first_wrong_variable(rows, file.environment.as_slice()) {
        return Err(Fault::WrongVariable(spot));
    }
    match first_difference(sorted.text, *file) {
        Some(place) => Err(Fault::NotCanonical(place)),
        None => Ok(()),
    }
}
