// Images in base 16, one a line after a name, and the report of each: the cases stand in stdin, what is expected in stdout.
#![tactic(auto)]

use recorder::Recorder;
use report_text::report_of;
use sha256::Sha256;
use test_input::{decode, each_line};

fn show(rt: &HostRuntime, line: &str) -> anyhow::Result<()> {
    let (name, digits) = line.split_once(' ').unwrap_or((line, ""));
    let image = decode(rt.alloc(), digits.as_bytes())?;
    let mut digest = Recorder::new(Sha256::new());
    let report = report_of(rt.alloc(), &mut digest, &image)?;
    println!(rt; "{name}")?;
    rt.write_all(&report)?;
    Ok(())
}

fn main(rt: HostRuntime) -> anyhow::Result<()> {
    each_line(rt.alloc(), rt.stdin(), |line| show(&rt, line))
}
