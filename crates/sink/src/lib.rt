// Byte sinks: what takes strings of bytes in turn. Code that writes is generic over the sink and proved once.
#![tactic(auto)]

ghost use Rattle.std.specs.Prelude.{◌≡◌, ℕ, ◌^◌, ◌<◌, List, OnErr};
ghost use Rattle.sink.specs.Digest.{Begins, AllWide};
ghost use Rattle.sink.specs.Write.{Held, Writes};

mod buffer;
mod counter;
mod digest;
mod full;
mod numerals;
mod to_sink;

pub use buffer::BufferWriter;
pub use counter::Counter;
pub use digest::{digest_of, writing_joins};
pub use full::Full;
pub use numerals::{write_decimal, write_hex};
pub use to_sink::ToSink;

// A sink is known by its state, how many bytes it still takes (remaining), and how many it ever took (total, modulo 2^64).
pub trait Sink {
    ghost step: { List ℕ → ℕ → List ℕ };

    ghost held: { Self → Held };

    ghost wraps: { (s : Self) → (held s).meaning.total < 2 ^ 64 };

    // Takes the whole string, or refuses it where it is longer than what remains.
    fn write(&mut self, bytes: &[u8]) -> Result<(), Full>
        ensures writes { Writes step (held self.old) bytes.now result (held self.new) }
        ensures same { OnErr result (self.new ≡ self.old) };
}

// A sink that digests: from its start, through the bytes written since, to an answer of 32 bytes, whatever the state.
pub trait DigestSink: Sink {
    ghost start: { List ℕ };

    ghost capacity: { ℕ };

    ghost answered: { List ℕ → List ℕ };

    ghost wide: { AllWide answered };

    fn begin(&mut self)
        ensures begins { Begins start capacity (Self.Sink.held self.old).meaning (Self.Sink.held self.new).meaning };

    fn answer(&self) -> [u8; 32]
        ensures answers { result ≡ answered (Self.Sink.held self.now).meaning.state };
}
