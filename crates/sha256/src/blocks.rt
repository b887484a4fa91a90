// The blocks of a message that comes in pieces.
ghost use Rattle.std.specs.Prelude.{◌<◌};

pub mod taking;

// The hash of the whole blocks, and the unfinished one, of which the first `filled` bytes have come. A block with a length beside it, and no
// vector: an answer is worked out on a copy, and a vector is not `Copy`.
#[derive(Clone, Copy)]
pub struct Blocks {
    words: [u32; 8],
    block: [u8; 64],
    filled: usize,
    ghost within: { filled < 64 },
}
