// Bytes into blocks.
ghost use Rattle.std.specs.Prelude.{◌≡◌, ◌+◌, ◌<◌, length};
ghost use Rattle.sha256.specs.Taking.{Takes};
ghost use Rattle.sha256.specs.Fips as fips;

use super::Blocks;
use crate::{block, padding, words};

impl Blocks {
    // Before a message.
    pub fn new() -> Blocks
        ensures words { result.words ≡ fips.H0 }
        ensures empty { result.filled ≡ 0 }
    {
        let words = words::start();
        Blocks {
            words,
            block: [0; 64],
            filled: 0,
        }
    }

    // The hash of the whole blocks.
    pub fn words(&self) -> [u32; 8]
        ensures { result ≡ self.now.words }
    {
        self.words
    }

    // Takes bytes that leave the block unfinished.
    fn keep(&mut self, bytes: &[u8])
        requires { self.old.filled + length bytes.now < 64 }
        ensures { Takes self.old bytes.now self.new }
    {
        padding::put(&mut self.block, self.filled, bytes);
        self.filled += bytes.len();
    }

    // Takes the bytes that finish the block.
    fn close(&mut self, bytes: &[u8])
        requires { self.old.filled + length bytes.now ≡ 64 }
        ensures { Takes self.old bytes.now self.new }
    {
        padding::put(&mut self.block, self.filled, bytes);
        let next = block::compress(self.words, &self.block);
        self.words = next;
        self.filled = 0;
    }

    // Takes bytes between blocks: whole blocks straight from the slice, and then keeps the rest.
    fn bulk(&mut self, bytes: &[u8])
        requires { self.old.filled ≡ 0 }
        ensures { Takes self.old bytes.now self.new }
    {
        let (whole, rest) = bytes.as_chunks();
        let next = block::compress_all(self.words, whole);
        self.words = next;
        padding::put(&mut self.block, 0, rest);
        self.filled = rest.len();
    }

    // Takes any bytes. Inlined into a write, so that a write of one byte is compiled as such.
    #[inline(always)]
    pub fn absorb(&mut self, bytes: &[u8])
        ensures { Takes self.old bytes.now self.new }
    {
        match bytes.split_at_checked(64 - self.filled) {
            Some((end, rest)) => {
                self.close(end);
                self.bulk(rest);
            }
            None => self.keep(bytes),
        }
    }
}
