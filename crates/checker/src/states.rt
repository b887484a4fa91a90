// The states of the files of a set.
use crate::state::State;

// One row a file, at its number less one.
// Not one generic table with that of the links: they would share the array and the test in `get`,
// and a number without a row is pending here and has no links there.
#[derive(Clone, Copy)]
pub struct States {
    rows: [State; 256],
}

pub mod calls;
