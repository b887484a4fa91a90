// A recorder: a layer over a digest sink that also keeps what it is given.
#![tactic(auto)]

mod layer;
mod table;

pub use layer::Recorder;
