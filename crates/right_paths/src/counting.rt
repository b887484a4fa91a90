// A layer that counts the bytes it passes on to a lent sink. Not sink's `Counter`, which passes nothing on.
ghost use Rattle.std.specs.Prelude.{◌≡◌};
ghost use Rattle.right_paths.specs.Counting.{counting as counting_step, counted};

use sink::{Full, Sink};

#[derive(Drop)]
pub struct Counting<'a, S: Sink> {
    below: &'a mut S,
    count: u64,
}

impl<'a, S: Sink> Sink for Counting<'a, S> {
    ghost step = { counting_step S.Sink.step };

    ghost held = { λ s. counted (S.Sink.held s.below.now) s.below.ghost_name s.count };

    ghost wraps = { λ s. S.Sink.wraps s.below.now };

    fn write(&mut self, bytes: &[u8]) -> Result<(), Full> {
        self.below.write(bytes)?;
        self.count = self.count.wrapping_add(bytes.len() as u64);
        Ok(())
    }
}

impl<'a, S: Sink> Counting<'a, S> {
    pub fn new(below: &'a mut S) -> Counting<'a, S>
        ensures { (result.below ≡ below.entry) × (result.count ≡ 0) }
    {
        Counting { below, count: 0 }
    }

    // The number of bytes passed on, modulo 2^64.
    pub fn count(&self) -> u64
        ensures { result ≡ self.now.count }
    {
        self.count
    }
}
