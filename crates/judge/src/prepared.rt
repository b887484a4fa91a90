// A file that reads, made ready: its rows sorted, so that its hashes can be worked out and its right paths held against it.
ghost use Rattle.std.specs.Prelude.{◌≤◌, length};
ghost use Rattle.derivation.specs.Judgement.{Accepted};
ghost use Rattle.store_path.specs.Names.{StorePath};
ghost use Rattle.judge.specs.Judgeable.{Prepared};

use aterm::Derivation;
use canonical::sorted;

// The derivation of a file that reads, with its rows sorted.
pub fn sorted_file(path: &[u8], text: &[u8], file: &Derivation) -> Derivation
    requires reads { Accepted path.now text.now file.now }
    requires stored { StorePath path.now }
    requires near { length path.now ≤ 255 }
    requires short { length text.now ≤ 262144 }
    ensures { Prepared path.now text.now file.now result }
{
    sorted(text, *file)
}
