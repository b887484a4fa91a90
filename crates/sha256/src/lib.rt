// SHA-256 as a digest sink, proved against FIPS 180-4.
#![tactic(auto)]

mod block;
mod blocks;
mod hasher;
mod padding;
mod words;

pub use hasher::Sha256;
