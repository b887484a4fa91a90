// The hash, the masked hash and the right paths of one file, given the hashes of its inputs.
#![tactic(auto)]

mod counting;
mod digests;
mod file;
mod file_output;
mod fixed_strings;
mod hash_input;
mod hash_input_canon;
mod hashes;
mod inputs;
mod locating;
mod masked;
mod names;
mod parts;
mod path_string;
mod references;
mod said;
mod texts;

pub use digests::pour;
pub use file::{SortedFile, is_fixed};
pub use file_output::FileOutput;
pub use hash_input::HashInput;
pub use hashes::{Counted, Digits, FileHashes};
pub use inputs::hash_inputs;
pub use names::{OutputName, name_of};
pub use parts::Word;
pub use said::Said;
pub use texts::{CanonicalText, MaskedText};
