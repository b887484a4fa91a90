// The number and the slot by which a refusal is told.
ghost use Rattle.std.specs.Prelude.{◌≡◌};
ghost use Rattle.image.specs.Opening.{refusal_number, refusal_slot};

use crate::refusal::Refusal;

impl Refusal {
    // A match and no discriminants: `as` takes enums without fields alone, and the variants, which callers match, carry slots.
    pub fn number(self) -> u8
        ensures { result ≡ refusal_number self }
    {
        match self {
            Refusal::Size => 2,
            Refusal::Slots => 3,
            Refusal::Link(_) => 4,
            Refusal::Part(_) => 5,
            Refusal::Path(_) => 6,
            Refusal::Repeated(_) => 7,
        }
    }

    // 0 where no slot is at fault, as it is printed.
    pub fn slot(self) -> u16
        ensures { result ≡ refusal_slot self }
    {
        match self {
            Refusal::Size | Refusal::Slots => 0,
            Refusal::Link(slot)
            | Refusal::Part(slot)
            | Refusal::Path(slot)
            | Refusal::Repeated(slot) => slot,
        }
    }
}
