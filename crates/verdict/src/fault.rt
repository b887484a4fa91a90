// Why a file of a set is not accepted.
use derivation::{FileFault, Spot};

#[derive(Clone, Copy)]
pub enum Fault {
    // 11 to 17: the file does not read.
    Reading(FileFault),
    // 18: the file that this input row names is not in the set.
    Absent(Spot),
    // 19: the file that this input row names reads, and does not own an output that the row names.
    Unowned(Spot),
    // 20: the file that this input row names has no hash.
    Unhashed(Spot),
    // 21: the file's own path is not the right one.
    WrongPath,
    // 22: the path of this output row is not the right one.
    WrongOutput(Spot),
    // 23: the environment does not have the name of an output with the right path: the row with that name, or row and place 0, which is what is printed where no row has it.
    WrongVariable(Spot),
    // 24: the text is not canonical; it differs from the canonical text from this place on.
    NotCanonical(usize),
}
