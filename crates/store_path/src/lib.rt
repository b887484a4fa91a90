// Store paths: names, the digits of base 32, and the fold of a digest.
#![tactic(auto)]

mod encoding;
mod names;

pub use encoding::{base32, fold};
pub use names::{Parts, all_in, ends_with_drv, is_name, is_store_path, take_apart};
