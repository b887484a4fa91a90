// Which files of an image name which, and whether those own the outputs that are wanted of them.
#![tactic(auto)]

mod finding;
mod laws;
mod link;
mod output_names;
mod owners;
mod owning;
mod rows;
mod table;

pub use finding::find;
pub use laws::sets_stand;
pub use link::{Link, Links};
pub use table::LinkTable;
pub use table::calls::link_files;
