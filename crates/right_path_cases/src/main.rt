// Derivation files in base 16, one a line: a name, the file's path and its text; inputs come before the files that use them. Of each is
// written what it is told by (its fault, if it does not read, else its verdict as far as questions 21 to 24 decide it), how many bytes were
// digested, its hash, its masked hash or a hyphen, its own right path and those of its outputs. Where the path is no store path, or path or
// text are longer than an image allows, `unfit` is written, and where the hash of an input is not known, `missing`.
// The cases stand in stdin, what is expected in stdout.
#![tactic(auto)]

ghost use Rattle.std.specs.Prelude.{◌≡◌, ◌≤◌, length, Decides, IfOk, IfSome};
ghost use Rattle.aterm.specs.Tables.{rows_of};
ghost use Rattle.store_path.specs.Names.{StorePath};
ghost use Rattle.judge.specs.Judgeable.{Prepared};

use anyhow::anyhow;
use aterm::{Derivation, Input, Placed};
use derivation::{Told, read_file};
use hash_rows::Hash;
use judge::{RightPath, judge_paths, sorted_file};
use right_paths::{FileHashes, OutputName, SortedFile, Word, name_of};
use sha256::Sha256;
use sink::{BufferWriter, ToSink};
use std::alloc::{AllocError, Global};
use store_path::is_store_path;
use test_input::{Hex, decode, each_line};

// The longest store path: its first 44 bytes, and a name.
const LONGEST_PATH: usize = 255;

// The longest text of a file in an image.
const LONGEST_TEXT: usize = 262144;

// A file whose hash was worked out.
#[derive(Drop)]
struct Known {
    path: Vec<u8>,
    hash: Hash,
}

// A file of the input.
#[derive(Clone, Copy)]
struct Case<'a> {
    path: &'a [u8],
    text: &'a [u8],
}

// The hash of the file at a path, if it came before.
fn hash_at(known: &[Known], path: &[u8]) -> Option<Hash> {
    known
        .iter()
        .find(|file| file.path.as_slice() == path)
        .map(|file| file.hash)
}

// The hashes of the files that the rows name, in their order; None where one is missing.
fn hashes_of(
    heap: Global,
    known: &[Known],
    text: &[u8],
    inputs: &[Placed<Input>],
) -> Result<Option<Vec<Hash>>, AllocError>
    ensures { IfOk result (λ found. IfSome found (λ hashes. length hashes.items ≡ length inputs.now)) }
{
    let mut hashes = Vec::new(heap);
    for input in inputs {
        let Some(hash) = hash_at(known, input.value.path.bytes(text)) else {
            return Ok(None);
        };
        hashes.push(hash)?;
    }
    Ok(Some(hashes))
}

// A right path, after a space.
fn show_path<T: ToSink>(rt: &HostRuntime, path: &T) -> anyhow::Result<()> {
    // As long as a path can be, and then cut.
    let mut text = vec![in rt.alloc(); 0u8; LONGEST_PATH]?;
    let mut writer = BufferWriter::new(&mut text);
    path.write_to(&mut writer)
        .map_err(|_| anyhow!("the path is too long"))?;
    let count = writer.count();
    text.truncate(count);
    print!(rt; " ")?;
    rt.write_all(&text)?;
    Ok(())
}

// What was worked out for a file.
fn show_worked(rt: &HostRuntime, of: SortedFile<'_>, worked: &FileHashes) -> anyhow::Result<()> {
    print!(rt; " {} {} ", worked.count, Hex(&worked.hash.bytes))?;
    match worked.masked {
        Some(masked) => print!(rt; "{}", Hex(&masked.bytes))?,
        None => print!(rt; "-")?,
    }
    let SortedFile { path, file, .. } = of;
    let own = RightPath {
        digits: worked.own,
        name: Word {
            bytes: name_of(path),
        },
    };
    show_path(rt, &own)?;
    for (output, digits) in file.outputs.as_slice().iter().zip(&worked.outputs) {
        let out = of.said(output.value.name);
        let right = RightPath {
            digits: *digits,
            name: OutputName { path, out },
        };
        show_path(rt, &right)?;
    }
    Ok(())
}

impl<'a> Case<'a> {
    // Whether the path is a store path and the text as short as one of an image.
    fn is_fit(&self) -> bool
        ensures { Decides result (StorePath self.now.path.now × ((length self.now.path.now ≤ 255) × (length self.now.text.now ≤ 262144))) }
    {
        is_store_path(self.path)
            && self.path.len() <= LONGEST_PATH
            && self.text.len() <= LONGEST_TEXT
    }

    // Shows what is worked out for a file that reads, and answers its hash. `file` is as the text was read, and `sorted` has its rows sorted.
    fn show_hashed(
        &self,
        rt: &HostRuntime,
        file: &Derivation,
        sorted: &Derivation,
        hashes: &[Hash],
    ) -> anyhow::Result<Hash>
        requires prepared { Prepared self.now.path.now self.now.text.now file.now sorted.now }
        requires each { length hashes.now ≡ length (rows_of sorted.now.inputs) }
    {
        let of = SortedFile {
            path: self.path,
            text: self.text,
            file: sorted,
        };
        let worked = of.hash(hashes, &mut Sha256::new());
        let verdict = judge_paths(file, of, &worked.own, &worked.outputs);
        print!(rt; " {}", Told::from(verdict))?;
        show_worked(rt, of, &worked)?;
        Ok(worked.hash)
    }

    // Shows what comes of the file, and answers its hash where it is worked out.
    fn show(&self, rt: &HostRuntime, known: &[Known]) -> anyhow::Result<Option<Hash>> {
        if !self.is_fit() {
            print!(rt; " unfit")?;
            return Ok(None);
        }
        let file = match read_file(self.path, self.text) {
            Ok(file) => file,
            Err(fault) => {
                print!(rt; " {}", Told::from(fault))?;
                return Ok(None);
            }
        };
        let sorted = sorted_file(self.path, self.text, &file);
        let Some(hashes) = hashes_of(rt.alloc(), known, self.text, sorted.inputs.as_slice())? else {
            print!(rt; " missing")?;
            return Ok(None);
        };
        let hash = self.show_hashed(rt, &file, &sorted, &hashes)?;
        Ok(Some(hash))
    }
}

// Shows the file of a line, and keeps its hash for those after it.
fn show(rt: &HostRuntime, known: &mut Vec<Known>, line: &str) -> anyhow::Result<()> {
    let Some((name, file)) = line.split_once(' ') else {
        return Ok(());
    };
    let (path, text) = file.split_once(' ').unwrap_or((file, ""));
    let path = decode(rt.alloc(), path.as_bytes())?;
    let text = decode(rt.alloc(), text.as_bytes())?;
    print!(rt; "{name}")?;
    let case = Case {
        path: &path,
        text: &text,
    };
    let hash = case.show(rt, known)?;
    println!(rt; "")?;
    if let Some(hash) = hash {
        known.push(Known { path, hash }).map_err(AllocError::from)?;
    }
    Ok(())
}

fn main(rt: HostRuntime) -> anyhow::Result<()> {
    let mut known = Vec::new(rt.alloc());
    each_line(rt.alloc(), rt.stdin(), |line| show(&rt, &mut known, line))
}
