// The image of derivation files: its layout, the questions put to it, and its files.
#![tactic(auto)]

mod chain;
mod fields;
mod image;
mod in_order;
mod questions;
mod refusal;
mod slot;
mod told;

pub use image::open::one_answer;
pub use image::{File, Image};
pub use in_order::Files;
pub use refusal::Refusal;
