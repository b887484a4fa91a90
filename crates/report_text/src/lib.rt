// The report of an image as a text on the heap, for the programs that print it.
#![tactic(auto)]

ghost use Rattle.std.specs.Prelude.{◌≡◌, IfOk};
ghost use Rattle.checker.specs.Settling.{kind_of};
ghost use Rattle.report_text.specs.Text.{as_read, IsReport, ReportPut};

use anyhow::anyhow;
use checker::report;
use sink::{BufferWriter, DigestSink, Full};
use std::alloc::Global;

// The most bytes that are read.
const LONGEST_INPUT: usize = 65535;

// The longest report: for each of 256 files a line with numbers of at most 3, 3, 3, 3, 20 and 20 digits, each ended by a space or the
// line's end, and the last line.
const LONGEST_REPORT: usize = 256 * 58 + 12;

// A longer input counts as an empty one: an image has neither size.
fn as_read(bytes: &[u8]) -> &[u8]
    ensures { result.now ≡ as_read bytes.now }
{
    if bytes.len() > LONGEST_INPUT {
        return &[];
    }
    bytes
}

// The report of what was read into a buffer, from its start, with the length as the answer; later bytes stay.
fn report_into<D: DigestSink>(out: &mut [u8], digest: &mut D, bytes: &[u8]) -> Result<usize, Full>
    ensures { IfOk result (λ n. ReportPut (kind_of D.Sink.step D.DigestSink.start D.DigestSink.capacity D.DigestSink.answered D.DigestSink.wide) bytes.now out.old n out.new) }
{
    let mut writer = BufferWriter::new(out);
    report(as_read(bytes), digest, &mut writer)?;
    Ok(writer.count())
}

// The report of what was read.
pub fn report_of<D: DigestSink>(
    heap: Global,
    digest: &mut D,
    bytes: &[u8],
) -> anyhow::Result<Vec<u8>>
    ensures { IfOk result (λ text. IsReport (kind_of D.Sink.step D.DigestSink.start D.DigestSink.capacity D.DigestSink.answered D.DigestSink.wide) bytes.now text.items) }
{
    // The longest there can be, and then cut: a sink over a growing vector would have to tell want of memory beside `Full`.
    let mut text = vec![in heap; 0u8; LONGEST_REPORT]?;
    let count = report_into(&mut text, digest, bytes).map_err(|_| anyhow!(
        "the report is too long"
    ))?;
    text.truncate(count);
    Ok(text)
}

#[cfg(test)]
mod tests {
    use super::*;
    use samples::Zeros;
    use std::test::Fail;

    #[test]
    fn reports(rt: HostRuntime) -> Result<(), Fail> {
        let short = report_of(rt.alloc(), &mut Zeros::new(), &[])?;
        assert_eq!(rt; short.as_slice(), b"refused 2 0\n".as_slice());
        let long = report_of(rt.alloc(), &mut Zeros::new(), &[0; 65536])?;
        assert_eq!(rt; long.as_slice(), b"refused 2 0\n".as_slice());
        let none = report_of(rt.alloc(), &mut Zeros::new(), &[0, 0, 0, 0])?;
        assert_eq!(rt; none.as_slice(), b"0 0 100\n".as_slice());
        Ok(())
    }
}
