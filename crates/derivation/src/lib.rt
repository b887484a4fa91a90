// One derivation file: its text is read, and the questions 13 to 17 are put to it.
#![tactic(auto)]

mod ask;
mod fault;
mod field;
mod file;
mod formed;
mod keys;
mod laws;
mod question;
mod rows;
mod spot;
mod told;

pub use fault::FileFault;
pub use field::Field;
pub use file::read_file;
pub use laws::every_tree_is_judged;
pub use question::Question;
pub use spot::Spot;
pub use told::Told;
