// The numbers that a verdict is told by.
ghost use Rattle.std.specs.Prelude.{◌≡◌};
ghost use Rattle.verdict.specs.Verdicts.{fault_details, verdict_details, told_row, told_file};

use crate::fault::Fault;
use derivation::{Spot, Told};

// A fault at a row. The numbers stand beside the variants and not in an enum inside `Fault`, as `Question` is inside `FileFault`: the variants are public, and that form would change them.
// derivation tells its questions so in one arm: a constructor of `Told` would be one public function more for one struct literal there.
fn tell_row(number: u8, layer: u8, spot: Spot) -> Told
    ensures { result ≡ told_row number layer spot }
{
    Told {
        number,
        layer,
        field: spot.field,
        row: spot.row,
        place: spot.place,
    }
}

// A fault of the whole file.
fn tell_file(number: u8, place: usize) -> Told
    ensures { result ≡ told_file number place }
{
    Told {
        number,
        layer: 5,
        field: 0,
        row: 0,
        place,
    }
}

// What the fault says.
impl From<Fault> for Told {
    ghost from_gives = { λ f r. r ≡ fault_details f };

    fn from(fault: Fault) -> Told {
        match fault {
            Fault::Reading(f) => f.into(),
            Fault::Absent(spot) => tell_row(18, 4, spot),
            Fault::Unowned(spot) => tell_row(19, 4, spot),
            Fault::Unhashed(spot) => tell_row(20, 4, spot),
            Fault::WrongPath => tell_file(21, 0),
            Fault::WrongOutput(spot) => tell_row(22, 5, spot),
            Fault::WrongVariable(spot) => tell_row(23, 5, spot),
            Fault::NotCanonical(place) => tell_file(24, place),
        }
    }
}

// What the verdict says; all 0 where the file is accepted. Public, the same as `Told::from`; no code here calls it.
pub fn tell_verdict(verdict: Result<(), Fault>) -> Told
    ensures { result ≡ verdict_details verdict }
{
    verdict.into()
}
