// A SHA-256 that takes its message in pieces.
ghost use Rattle.std.specs.Prelude.{◌≡◌, ◌%◌, ◌≤◌};

use crate::blocks::Blocks;

pub mod stream;

// `count` is the length of the message since begin.
#[derive(Clone, Copy)]
pub struct Sha256 {
    blocks: Blocks,
    count: u64,
    total: u64,
    ghost even: { blocks.filled ≡ count % 64 },
    ghost short: { count ≤ 16777216 },
}
