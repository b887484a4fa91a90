// A digest sink for tests.
ghost use Rattle.std.specs.Prelude.{◌≡◌, []};
ghost use Rattle.samples.specs.Zeros.{zero_answer, zero_wide, fresh};
ghost use Rattle.sink.specs.Counter.{forgetting, numbered, numbered_wraps};

use sink::{DigestSink, Full, Sink};

// Takes 1,048,576 bytes after each begin, and answers 32 zeros whatever they were.
#[derive(Clone, Copy)]
pub struct Zeros {
    remaining: usize,
    total: u64,
}

impl Sink for Zeros {
    ghost step = { forgetting };

    ghost held = { λ s. numbered s.remaining s.total };

    ghost wraps = { λ s. numbered_wraps s.remaining s.total };

    fn write(&mut self, bytes: &[u8]) -> Result<(), Full> {
        let n = bytes.len();
        if n > self.remaining {
            return Err(Full);
        }
        self.remaining -= n;
        self.total = self.total.wrapping_add(n as u64);
        Ok(())
    }
}

impl DigestSink for Zeros {
    ghost start = { [] };

    ghost capacity = { 1048576 };

    ghost answered = { zero_answer };

    ghost wide = { zero_wide };

    fn begin(&mut self) {
        self.remaining = 1048576;
    }

    fn answer(&self) -> [u8; 32] {
        [0; 32]
    }
}

impl Zeros {
    pub fn new() -> Zeros
        ensures { (numbered result.remaining result.total).meaning ≡ fresh }
    {
        Zeros {
            remaining: 1048576,
            total: 0,
        }
    }
}
