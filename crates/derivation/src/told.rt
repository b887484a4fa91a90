// The numbers that a fault is told by.
ghost use Rattle.std.specs.Prelude.{◌≡◌, Some, MatchResult};
ghost use Rattle.derivation.specs.Judgement.{details, no_details, columns};

use crate::fault::FileFault;
use aterm::Cause;
use std::fmt;

// 11 and 12 are of layer 2, with field and row 0; 13 to 17 are of layer 3.
// Numbers, since they are what is printed: which fault it is stands in `FileFault`.
#[derive(Clone, Copy, Default, PartialEq, Debug)]
pub struct Told {
    pub number: u8,
    pub layer: u8,
    pub field: u8,
    pub row: usize,
    pub place: usize,
}

impl From<FileFault> for Told {
    ghost from_gives = { λ f r. r ≡ details f };

    fn from(value: FileFault) -> Told {
        match value {
            FileFault::Text(fault) => Told {
                // The reader's causes know no numbers of questions.
                number: match fault.cause {
                    Cause::Byte => 11,
                    Cause::Row => 12,
                },
                layer: 2,
                field: 0,
                row: 0,
                place: fault.place,
            },
            FileFault::Row(question, spot) => Told {
                number: question as u8,
                layer: 3,
                field: spot.field,
                row: spot.row,
                place: spot.place,
            },
        }
    }
}

// What is told of a result: its refusal, and all 0 where there is none.
impl<T: Drop, E: Into<Told>> From<Result<T, E>> for Told {
    ghost from_gives = { λ r t. MatchResult r (λ _. t ≡ no_details) (λ e. E.converts e t) };

    fn from(value: Result<T, E>) -> Told {
        match value {
            Ok(_) => Told::default(),
            Err(e) => e.into(),
        }
    }
}

impl fmt::Display for Told {
    ghost output = { λ t. Some (columns t) };

    fn fmt<W: fmt::Write>(&self, f: &mut fmt::Formatter<W>) -> fmt::Result {
        let Told {
            number,
            layer,
            field,
            row,
            place,
        } = *self;
        write!(f, "{number} {layer} {field} {row} {place}")
    }
}
