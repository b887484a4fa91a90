// An ordered table of at most 64 rows by hash, taken and given back by value at each change.
#![tactic(auto)]

mod hash;
mod laws;
mod table;

pub use hash::{Hash, HashRow};
pub use laws::rows_stand;
pub use table::HashRows;
pub use table::calls::{gather, gather_from};
