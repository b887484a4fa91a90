// drvcheck < IMAGE: the verdict of each file of an image of derivations.
#![tactic(auto)]

use recorder::Recorder;
use report_text::report_of;
use sha256::Sha256;
use std::io::Read;

// One byte more than an image may have here, so that a longer input is seen to be longer.
const MOST_READ: u64 = 65536;

fn run(rt: &HostRuntime) -> anyhow::Result<()> {
    let mut bytes = Vec::new(rt.alloc());
    rt.stdin().take(MOST_READ).read_to_end(&mut bytes)?;
    let mut digest = Recorder::new(Sha256::new());
    let report = report_of(rt.alloc(), &mut digest, &bytes)?;
    rt.write_all(&report)?;
    Ok(())
}

fn main(rt: HostRuntime) -> anyhow::Result<()> {
    run(&rt)
}
