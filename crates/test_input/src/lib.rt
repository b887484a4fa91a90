// What programs of cases and measurements share: bytes in base 16, the lines of their input, numbers among their arguments, work that is done again.
#![tactic(auto)]

mod argument;
mod base16;
mod lines;
mod turns;

pub use argument::number;
pub use base16::{Hex, decode};
pub use lines::each_line;
pub use turns::repeat;
