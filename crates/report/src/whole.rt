// A text into a caller's buffer: its length is learnt before a byte is written.
ghost use Rattle.std.specs.Prelude.{◌≡◌, ◌^◌, ◌≤◌, length, MatchResult};
ghost use Rattle.report.specs.Whole.{Whole};

use sink::{BufferWriter, Counter, Full, ToSink};

// The length of a text; one that 64 bits do not count is longer than any buffer. Nothing is written, so there is no sink for a counting
// layer to lie over.
fn measure<T: ToSink>(what: &T) -> Result<u64, Full>
    ensures { MatchResult result (λ n. n ≡ length (T.bytes what.now)) (λ _. 2 ^ 64 ≤ length (T.bytes what.now)) }
{
    let mut counter = Counter::new();
    what.write_to(&mut counter)?;
    Ok(counter.count())
}

// The text from the buffer's start, with its length as the answer; later bytes stay. A buffer that is too short is left as it was.
pub fn write_whole<T: ToSink>(what: &T, out: &mut [u8]) -> Result<usize, Full>
    ensures { Whole (T.bytes what.now) out.old result out.new }
{
    let needed = measure(what)?;
    if (out.len() as u64) < needed {
        return Err(Full);
    }
    let mut writer = BufferWriter::new(out);
    what.write_to(&mut writer)?;
    Ok(writer.count())
}
