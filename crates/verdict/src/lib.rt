// The verdict of a file of a set: accepted, or its first fault.
#![tactic(auto)]

mod fault;
mod laws;
mod told;

pub use fault::Fault;
pub use laws::verdicts_stand;
pub use told::tell_verdict;
