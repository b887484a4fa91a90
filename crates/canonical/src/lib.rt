// What a derivation's text means, and the one canonical text of that meaning.
#![tactic(auto)]

mod comparer;
mod file;
mod laws;
mod row;
mod sort;
mod string;
mod watcher;

pub use comparer::first_difference;
pub use file::{sorted, write_canonical, write_derivation, write_fields};
pub use laws::{
    canonical_is_injective, canonical_is_short, canonical_is_the_only_one, canonical_reads_back,
    meaning_exists, meaning_is_unique, needless_escape_is_dropped,
};
pub use row::{Canon, write_after, write_rows};
pub use string::{compare, compare_bytes, write_span, write_string};
pub use watcher::{Watch, Watcher};
