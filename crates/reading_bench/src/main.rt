// Makes a derivation's text of about so many KiB (argument 1, 64 without it), and reads it or writes it in canonical form
// (argument 2, `read` or `rewrite`) so many times (argument 3, once without it).
// Prints the text's length, and then the number of environment rows or the canonical text's length.
#![tactic(auto)]

mod sample;

use anyhow::anyhow;
use derivation::{FileFault, read_file};
use file_meaning::{Unwritten, write_canonical_file};
use sample::make;
use sink::BufferWriter;
use std::env;
use test_input::{number, repeat};

const PATH: &[u8] = b"/nix/store/0123456789abcdfghijklmnpqrsvwxyz-bench.drv";

fn read_once(text: &[u8]) -> Result<usize, FileFault> {
    let file = read_file(PATH, text)?;
    Ok(file.environment.len())
}

fn rewrite_once(text: &[u8], room: &mut [u8]) -> Result<usize, Unwritten> {
    let mut out = BufferWriter::new(room);
    write_canonical_file(PATH, text, &mut out)?;
    Ok(out.count())
}

fn read(text: &[u8], times: usize) -> anyhow::Result<usize> {
    repeat(times, || read_once(text)).map_err(|_| anyhow!("the text does not read"))
}

fn rewrite(rt: &HostRuntime, text: &[u8], times: usize) -> anyhow::Result<usize> {
    let size = text.len().saturating_mul(2).saturating_add(64);
    let mut room = vec![in rt.alloc(); 0u8; size]?;
    repeat(times, || rewrite_once(text, &mut room)).map_err(|_| anyhow!("the text is not written"))
}

fn wants_rewrite(rt: &HostRuntime) -> anyhow::Result<bool> {
    let kind = env::args(rt)?.nth(2);
    Ok(kind.is_some_and(|text| text.as_str() == "rewrite"))
}

// A text has at most 256 KiB.
fn run(rt: &HostRuntime) -> anyhow::Result<()> {
    let size = number(env::args(rt)?.nth(1), 64usize)?.min(255) * 1024;
    let times = number(env::args(rt)?.nth(3), 1)?;
    let made = make(rt.alloc(), size)?;
    let text = made.as_bytes();
    let count = if wants_rewrite(rt)? {
        rewrite(rt, text, times)?
    } else {
        read(text, times)?
    };
    let length = text.len();
    println!(rt; "{length} {count}")?;
    Ok(())
}

fn main(rt: HostRuntime) -> anyhow::Result<()> {
    run(&rt)
}
