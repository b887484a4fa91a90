// An input row with the hash of its file in place of its path.
use aterm::{Rows, Span};
use hash_rows::Hash;

#[derive(Clone, Copy, Default)]
pub struct HashInput {
    pub hash: Hash,
    pub names: Rows<Span, 16>,
}
