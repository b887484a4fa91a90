// The names that stand in store paths.
ghost use Rattle.std.specs.Prelude.{◌≡◌};
ghost use Rattle.derivation.specs.Questions.{stem as stem_of, output_name};
ghost use Rattle.hash_modulo.specs.Paths.{file_name};
ghost use Rattle.right_paths.specs.Views.{said_by};

use crate::said::Said;
use sink::{Full, Sink, ToSink};

// The name of the file at a path: all that follows `/nix/store/`, the digits and the hyphen.
pub fn name_of(path: &[u8]) -> &[u8]
    ensures { result.now ≡ file_name path.now }
{
    let at = path.len().min(44);
    &path[at..]
}

// The name of the file without `.drv`.
fn stem(path: &[u8]) -> &[u8]
    ensures { result.now ≡ stem_of path.now }
{
    let name = name_of(path);
    let end = name.len().saturating_sub(4);
    &name[..end]
}

// The name of an output of the file at `path`: the file's, and `-` and the output unless that is `out`.
#[derive(Clone, Copy)]
pub struct OutputName<'a> {
    pub path: &'a [u8],
    pub out: Said<'a>,
}

impl<'a> ToSink for OutputName<'a> {
    ghost bytes = { λ s. output_name s.path.now (said_by s.out) };

    fn write_to<S: Sink>(&self, sink: &mut S) -> Result<(), Full> {
        sink.write(stem(self.path))?;
        if self.out.says(b"out") {
            return Ok(());
        }
        sink.write(b"-")?;
        self.out.write_to(sink)
    }
}
