// The canonical text of an input row that has a hash in place of its path.
ghost use Rattle.canonical.specs.Meanings.{an_input};
ghost use Rattle.right_paths.specs.Inputs.{hash_input_value};

use crate::hash_input::HashInput;
use canonical::{Canon, write_after};
use sink::{Full, Sink, write_hex};
use std::cmp::Ordering;

impl Canon for HashInput {
    ghost kind = { an_input };

    ghost value = { hash_input_value };

    // Hex keeps the order of the bytes.
    fn order(&self, _text: &[u8], other: &HashInput) -> Ordering {
        self.hash.cmp(&other.hash)
    }

    fn arranged(self, text: &[u8]) -> HashInput {
        HashInput {
            names: self.names.arranged(text),
            ..self
        }
    }

    // No digit of a hash is escaped.
    fn write_text<S: Sink>(&self, text: &[u8], sink: &mut S) -> Result<(), Full> {
        sink.write(b"(\"")?;
        write_hex(sink, &self.hash.bytes)?;
        sink.write(b"\"")?;
        write_after(text, b',', &self.names, sink)?;
        sink.write(b")")
    }
}
