// Settles the files of an image and reports on them so many times (the argument, once without it), and prints the last report.
// The image is what it reads. Of one that does not open it prints the line of the refusal.
#![tactic(auto)]

use anyhow::anyhow;
use checker::report;
use sha256::Sha256;
use sink::{BufferWriter, Full};
use std::env;
use std::io::Read;
use test_input::{number, repeat};

// The longest image.
const MOST_READ: u64 = 4194304;

// The longest report: a line of at most 22 bytes for each of 256 files, and the last line, of at most 12.
const LONGEST_REPORT: usize = 256 * 22 + 12;

fn report_once(image: &[u8], room: &mut [u8]) -> Result<usize, Full> {
    let mut out = BufferWriter::new(room);
    report(image, &mut Sha256::new(), &mut out)?;
    Ok(out.count())
}

fn run(rt: &HostRuntime) -> anyhow::Result<()> {
    let times = number(env::args(rt)?.nth(1), 1)?;
    let mut image = Vec::new(rt.alloc());
    rt.stdin().take(MOST_READ).read_to_end(&mut image)?;
    let mut room = vec![in rt.alloc(); 0u8; LONGEST_REPORT]?;
    let count = repeat(times, || report_once(&image, &mut room)).map_err(|_| anyhow!(
        "the report is too long"
    ))?;
    room.truncate(count);
    rt.write_all(&room)?;
    Ok(())
}

fn main(rt: HostRuntime) -> anyhow::Result<()> {
    run(&rt)
}
