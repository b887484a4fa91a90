// The canonical text of a file, to any sink.
ghost use Rattle.std.specs.Prelude.{◌≡◌};
ghost use Rattle.file_meaning.specs.Rewritten.{Rewritten};
ghost use Rattle.file_meaning.specs.declared.rewritten.Unwritten.TheVariants.{Fault, Full};

use canonical::write_canonical;
use derivation::{FileFault, read_file};
use sink::{Full, Sink};

// Why the canonical text of a file was not written: an error of its own, since `?` makes it of two refusals.
#[derive(Clone, Copy)]
pub enum Unwritten {
    // The file does not read.
    Fault(FileFault),
    // The sink takes no more.
    Full,
}

// By hand, here and below: the clause of `write_canonical_file` names the error that `?` makes.
impl From<FileFault> for Unwritten {
    ghost from_gives = { λ fault e. e ≡ Fault fault };

    fn from(fault: FileFault) -> Unwritten {
        Unwritten::Fault(fault)
    }
}

impl From<Full> for Unwritten {
    ghost from_gives = { λ _ e. e ≡ Full };

    fn from(_full: Full) -> Unwritten {
        Unwritten::Full
    }
}

// Reads the file and writes its canonical text; where it does not read, nothing is written.
pub fn write_canonical_file<S: Sink>(path: &[u8], text: &[u8], out: &mut S) -> Result<(), Unwritten>
    ensures { Rewritten path.now text.now S.Sink.step (S.Sink.held out.old) result (S.Sink.held out.new) out.old out.new }
{
    let file = read_file(path, text)?;
    write_canonical(text, file, out)?;
    Ok(())
}
