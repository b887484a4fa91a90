// What is worked out for a file.
use hash_rows::Hash;

// The 32 digits of a store path.
#[derive(Clone, Copy, Default)]
pub struct Digits {
    pub bytes: [u8; 32],
}

// A value, and the number of bytes that were digested for it.
#[derive(Clone, Copy)]
pub struct Counted<T> {
    pub value: T,
    pub count: u64,
}

// The file's right path, its hash, its masked hash (a fixed file has none), its outputs' right paths, rising, and the number of
// bytes that were digested for all of them. The file itself says how many outputs there are, and those past its last are of no meaning.
// No `ArrayVec`: this public type is `Copy`, and judge's `judge_paths` takes the digits as an array of 16.
#[derive(Clone, Copy)]
pub struct FileHashes {
    pub own: Digits,
    pub hash: Hash,
    pub masked: Option<Hash>,
    pub outputs: [Digits; 16],
    pub count: u64,
}
