// The texts of the final report: a line a file, the line of a refusal, and the last line.
#![tactic(auto)]

mod columns;
mod lines;
mod percent;
mod whole;

pub use columns::write_told;
pub use lines::{FileLine, RefusedLine, Summary};
pub use whole::write_whole;
