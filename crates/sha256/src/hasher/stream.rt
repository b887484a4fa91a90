// Bytes in, a digest out.
ghost use Rattle.std.specs.Prelude.{◌≡◌, ℕ, List};
ghost use Rattle.sink.specs.Digest.{Begins, digest};
ghost use Rattle.sha256.specs.Fips as fips;
ghost use Rattle.sha256.specs.Fips.{LeastZeros};
ghost use Rattle.sha256.specs.Hashing as hs;
ghost use Rattle.sha256.specs.Wide.{answers_wide};

use super::Sha256;
use crate::blocks::Blocks;
use crate::padding;
use sink::{DigestSink, Full, Sink};

// The most bytes that a digest is taken of.
const MOST: u64 = 16777216;

impl Sha256 {
    // A hasher that has begun, and has taken nothing.
    pub fn new() -> Sha256
        ensures { (hs.hashed result).meaning ≡ hs.fresh }
    {
        let blocks = Blocks::new();
        Sha256 {
            blocks,
            count: 0,
            total: 0,
        }
    }
}

impl Sink for Sha256 {
    ghost step = { hs.step };

    ghost held = { hs.hashed };

    ghost wraps = { hs.hashed_wraps };

    fn write(&mut self, bytes: &[u8]) -> Result<(), Full> {
        let n = bytes.len() as u64;
        if n > MOST - self.count {
            return Err(Full);
        }
        self.blocks.absorb(bytes);
        self.count += n;
        self.total = self.total.wrapping_add(n);
        Ok(())
    }
}

impl DigestSink for Sha256 {
    ghost start = { hs.start };

    ghost capacity = { 16777216 };

    ghost answered = { hs.answer };

    ghost wide = { answers_wide };

    // The digest of this sink is the one of the standard, for every string; and its padding has the least count of zeros that the standard asks for.
    fn begin(&mut self)
        ensures begins { Begins hs.start 16777216 (hs.hashed self.old).meaning (hs.hashed self.new).meaning }
        ensures padding { (n : ℕ) → LeastZeros n (fips.zeros n) }
        ensures standard { (bs : List ℕ) → digest hs.step hs.start hs.answer bs ≡ fips.digest bs }
    {
        let blocks = Blocks::new();
        self.blocks = blocks;
        self.count = 0;
    }

    fn answer(&self) -> [u8; 32] {
        let mut last = self.blocks;
        last.absorb(padding::filler(self.count));
        last.absorb(&padding::bits(self.count));
        padding::spell(last.words())
    }
}
