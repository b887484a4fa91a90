// Bytes in base 16, as the programs that run many cases read and print them.
ghost use Rattle.std.specs.Prelude.{◌≡◌, ◌/◌, ◌<◌, length, IfOk, Some, vec_len};
ghost use Rattle.sink.specs.Numerals.{hex};

use std::alloc::{AllocError, Global};
use std::fmt;

// By hand: `char::to_digit` takes capitals too, which count as 0 here.
fn half(b: u8) -> u8
    ensures { result < 16 }
{
    match b {
        b'0'..=b'9' => b - b'0',
        b'a'..=b'f' => b - b'a' + 10,
        _ => 0,
    }
}

// Two digits of base 16 a byte; what is no digit counts as 0, and an odd one at the end is left out.
// By hand, since the toolchain's crate hex refuses such digits.
pub fn decode(heap: Global, digits: &[u8]) -> Result<Vec<u8>, AllocError>
    ensures { IfOk result (λ v. vec_len v ≡ length digits.now / 2) }
{
    digits
        .as_chunks::<2>()
        .0
        .iter()
        .map(|pair| 16 * half(pair[0]) + half(pair[1]))
        .collect(heap)
}

// Bytes as two digits each, in lower case, for `fmt`: right_paths has its own for a sink.
#[derive(Clone, Copy)]
pub struct Hex<'a>(pub &'a [u8]);

impl<'a> fmt::Display for Hex<'a> {
    ghost output = { λ x. Some (hex x.0.now) };

    fn fmt<W: fmt::Write>(&self, f: &mut fmt::Formatter<W>) -> fmt::Result {
        for &b in self.0 {
            write!(f, "{b:02x}")?;
        }
        Ok(())
    }
}
