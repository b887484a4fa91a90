// The canonical text of a file.
ghost use Rattle.checker.specs.Calls.{Rewrites, FileRewritten};
ghost use Rattle.checker.specs.Seen.{view_of};

use super::Checker;
use super::writing::write_text;
use crate::refused::CallRefusal;
use canonical::sorted;
use derivation::read_file;
use image::File;
use right_paths::{CanonicalText, SortedFile};

// The canonical text of one file, if it reads.
fn write_canonical_text(file: File<'_>, out: &mut [u8]) -> Result<usize, CallRefusal>
    ensures { FileRewritten file.entry.path.now file.entry.text.now out.old result out.new }
{
    let File { path, text } = file;
    let Ok(read) = read_file(path, text) else {
        return Err(CallRefusal::NotRead);
    };
    let file = &sorted(text, read);
    let of = SortedFile { path, text, file };
    write_text(&CanonicalText { of }, out)
}

impl<'a> Checker<'a> {
    // The canonical text of a file, from the buffer's start.
    pub fn rewrite(&self, file: usize, out: &mut [u8]) -> Result<usize, CallRefusal>
        ensures { Rewrites (view_of self.now) file out.old result out.new }
    {
        let file = self.set()?.file(file)?;
        write_canonical_text(file, out)
    }
}
