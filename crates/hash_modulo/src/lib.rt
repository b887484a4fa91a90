// The recursive definition of hashes modulo inputs, and its laws.
#![tactic(auto)]

mod laws;

pub use laws::{definition_stands, digested_strings_stand, right_paths_stand};
