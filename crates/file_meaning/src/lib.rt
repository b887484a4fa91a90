// What a file at a store path means, and its canonical text.
#![tactic(auto)]

mod laws;
mod rewritten;

pub use laws::{
    canonical_text_is_short, canonical_text_reads_again, files_are_alike_by_meaning,
    files_are_judged, files_have_one_meaning, meanings_have_one_text,
};
pub use rewritten::{Unwritten, write_canonical_file};
