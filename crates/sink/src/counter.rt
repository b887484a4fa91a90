// A sink that only measures a length.
ghost use Rattle.std.specs.Prelude.{◌≡◌, ◌-◌, ◌^◌};
ghost use Rattle.sink.specs.Counter.{forgetting, counted, numbered_wraps};

use crate::{Full, Sink};

#[derive(Clone, Copy)]
pub struct Counter {
    count: u64,
}

impl Sink for Counter {
    ghost step = { forgetting };

    ghost held = { λ s. counted s.count };

    ghost wraps = { λ s. numbered_wraps (2 ^ 64 - 1 - s.count) s.count };

    fn write(&mut self, bytes: &[u8]) -> Result<(), Full> {
        let count = self.count.checked_add(bytes.len() as u64).ok_or(Full)?;
        self.count = count;
        Ok(())
    }
}

impl Counter {
    pub fn new() -> Counter
        ensures { result.count ≡ 0 }
    {
        Counter { count: 0 }
    }

    // The number of bytes written.
    pub fn count(&self) -> u64
        ensures { result ≡ self.now.count }
    {
        self.count
    }
}
