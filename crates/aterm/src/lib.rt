// The texts of derivations, read into the spans of their strings.
#![tactic(auto)]

mod fault;
mod file;
mod law;
mod meant;
mod part;
mod reader;
mod rows;

pub use fault::{Cause, Fault};
pub use file::{Derivation, Input, Output, Variable, read};
pub use law::{bytes_mean_the_string, every_text_is_judged};
pub use meant::Meant;
pub use part::{Shaped, Span};
pub use rows::{Placed, Rows};
