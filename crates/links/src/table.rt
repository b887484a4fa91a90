ghost use Rattle.std.specs.Prelude.{◌≡◌};

use crate::link::Links;

// What is kept of each file of an image that reads, at its number less one.
// Not one generic table with `States` of checker: the reason stands there.
#[derive(Clone, Copy)]
pub struct LinkTable {
    files: [Option<Links>; 256],
}

pub mod calls;
