// Digests 16 MiB that it makes, as often as its argument says (once without one), and prints the digest.
#![tactic(auto)]

ghost use Rattle.std.specs.Prelude.{◌≡◌, ◌<◌, length, IfOk, MatchResult};
ghost use Rattle.sha256.specs.Fips as fips;
ghost use Rattle.sha256_bench.specs.Sample.{sample};

use anyhow::anyhow;
use sha256::Sha256;
use sink::{Full, digest_of};
use std::alloc::{AllocError, Global};
use std::env;
use test_input::{Hex, number, repeat};

const SIZE: usize = 16777216;

// The byte at place i is i modulo 251, so that blocks near one another differ.
fn make(heap: Global, size: usize) -> Result<Vec<u8>, AllocError>
    ensures { IfOk result (λ v. v.items ≡ sample size) }
{
    (0..size).map(|i| (i % 251) as u8).collect(heap)
}

// What is digested.
fn message(heap: Global) -> Result<Vec<u8>, AllocError>
    ensures { IfOk result (λ v. v.items ≡ sample 16777216) }
{
    make(heap, SIZE)
}

// The digest of `bytes`, taken `times` times, and once where `times` is 0.
fn digest_again(bytes: &[u8], times: u32) -> Result<[u8; 32], Full>
    ensures { MatchResult result (λ d. d ≡ fips.digest bytes.now) (λ _. 16777216 < length bytes.now) }
{
    let mut hasher = Sha256::new();
    repeat(times as usize, || digest_of(&mut hasher, bytes))
}

fn run(rt: &HostRuntime) -> anyhow::Result<()> {
    // Want of memory is told before an argument that is no number.
    let message = message(rt.alloc())?;
    let times = number(env::args(rt)?.nth(1), 1)?;
    let digest = digest_again(&message, times).map_err(|_| anyhow!("too long"))?;
    println!(rt; "{}", Hex(&digest))?;
    Ok(())
}

fn main(rt: HostRuntime) -> anyhow::Result<()> {
    run(&rt)
}
