// Derivation files in base 16, one a line: a name, the file's path and its text. Of each is written what its fault is told by, or that it reads, the digest of its canonical text, and where it first differs from that.
// The cases stand in stdin, what is expected in stdout.
#![tactic(auto)]

use aterm::Derivation;
use canonical::{first_difference, write_canonical};
use derivation::{Told, read_file};
use sha256::Sha256;
use sink::DigestSink;
use test_input::{Hex, decode, each_line};

// A file under the name of its case.
#[derive(Clone, Copy)]
struct Case<'a> {
    name: &'a str,
    path: &'a [u8],
    text: &'a [u8],
}

impl<'a> Case<'a> {
    // The digest of the canonical text, which goes straight into it; None where the text is longer than it takes.
    fn digest(&self, file: Derivation) -> Option<[u8; 32]> {
        let mut digest = Sha256::new();
        write_canonical(self.text, file, &mut digest).ok()?;
        Some(digest.answer())
    }

    // Where there is no digest, nothing stands in its place.
    fn show_canonical(&self, rt: &HostRuntime, file: Derivation) -> anyhow::Result<()> {
        print!(rt; "{} reads ", self.name)?;
        if let Some(digest) = self.digest(file) {
            print!(rt; "{}", Hex(&digest))?;
        }
        match first_difference(self.text, file) {
            None => println!(rt; " canonical")?,
            Some(place) => println!(rt; " differs {place}")?,
        }
        Ok(())
    }

    fn show(&self, rt: &HostRuntime) -> anyhow::Result<()> {
        match read_file(self.path, self.text) {
            Ok(file) => self.show_canonical(rt, file)?,
            Err(fault) => {
                let name = self.name;
                println!(rt; "{name} {}", Told::from(fault))?;
            }
        }
        Ok(())
    }
}

fn show(rt: &HostRuntime, line: &str) -> anyhow::Result<()> {
    let Some((name, file)) = line.split_once(' ') else {
        return Ok(());
    };
    let (path, text) = file.split_once(' ').unwrap_or((file, ""));
    let path = decode(rt.alloc(), path.as_bytes())?;
    let text = decode(rt.alloc(), text.as_bytes())?;
    let case = Case {
        name,
        path: &path,
        text: &text,
    };
    case.show(rt)
}

fn main(rt: HostRuntime) -> anyhow::Result<()> {
    each_line(rt.alloc(), rt.stdin(), |line| show(&rt, line))
}
