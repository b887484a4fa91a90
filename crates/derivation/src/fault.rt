// Why a file is refused.
ghost use Rattle.std.specs.Prelude.{◌≡◌};
ghost use Rattle.derivation.specs.declared.fault.FileFault.TheVariants.{Text};

use crate::question::Question;
use crate::spot::Spot;

#[derive(Clone, Copy)]
pub enum FileFault {
    // The text does not read.
    Text(aterm::Fault),
    // The text reads, and the answer to this question is no, first at this row.
    Row(Question, Spot),
}

// By hand: the clause of `read_file` names the error that `?` makes.
impl From<aterm::Fault> for FileFault {
    ghost from_gives = { λ f r. r ≡ Text f };

    fn from(value: aterm::Fault) -> FileFault {
        FileFault::Text(value)
    }
}
