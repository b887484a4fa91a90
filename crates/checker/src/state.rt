// What is kept of one file.
use hash_rows::Hash;
use verdict::Fault;

// The hashes of a file that has them; a fixed file has no masked hash.
#[derive(Clone, Copy)]
pub struct Hashes {
    pub hash: Hash,
    pub masked: Option<Hash>,
}

// What settling a file decides: its verdict, and its hashes where it has them.
#[derive(Clone, Copy)]
pub struct Settlement {
    pub verdict: Result<(), Fault>,
    pub hashes: Option<Hashes>,
}

// A file is pending until a visit to it is taken, and taken until that visit is settled or put back.
#[derive(Clone, Copy)]
pub enum State {
    Pending,
    Taken,
    Settled(Settlement),
}
