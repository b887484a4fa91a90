// Numbers as text, to any sink.
ghost use Rattle.std.specs.Prelude.{◌≡◌, ◌*◌, ◌/◌, ◌<◌, take, OnErr};
ghost use Rattle.sink.specs.Numerals.{digit, pair, hex};
ghost use Rattle.sink.specs.Write.{Taken, Writes};

use crate::{Full, Sink};
use itoa::{Buffer, Integer};

// By hand: the toolchain's crate `hex` fills a slice and can refuse it, which two digits never do.
fn hex_digit(n: u8) -> u8
    requires { n < 16 }
    ensures { result ≡ digit n }
{
    if n < 10 { b'0' + n } else { b'a' - 10 + n }
}

// A byte as two digits of base 16, the high half first.
fn write_pair<S: Sink>(sink: &mut S, b: u8) -> Result<(), Full>
    ensures writes { Writes S.step (S.held sink.old) (pair b) result (S.held sink.new) }
    ensures same { OnErr result (sink.new ≡ sink.old) }
{
    sink.write(&[hex_digit(b / 16), hex_digit(b % 16)])
}

// Two digits of base 16 for each byte, each pair as one string; where they do not fit, as many whole pairs as do.
pub fn write_hex<S: Sink>(sink: &mut S, bytes: &[u8]) -> Result<(), Full>
    ensures writes { Writes S.step (S.held sink.old) (hex bytes.now) result (S.held sink.new) }
    ensures pairs { OnErr result (Taken S.step (S.held sink.old) (take (2 * ((S.held sink.old).meaning.remaining / 2)) (hex bytes.now)) (S.held sink.new)) }
{
    for b in bytes {
        write_pair(sink, *b)?;
    }
    Ok(())
}

// A number in base 10, without leading zeros, as one string: `decimal n`, and a sign before it where the number is below 0.
pub fn write_decimal<S: Sink, I: Integer>(sink: &mut S, n: I) -> Result<(), Full>
    ensures writes { Writes S.step (S.held sink.old) (I.text n) result (S.held sink.new) }
    ensures same { OnErr result (sink.new ≡ sink.old) }
{
    sink.write(Buffer::new().format(n).as_bytes())
}
