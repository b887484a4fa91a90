// Right paths of a file: its own, and those of its outputs.
ghost use Rattle.std.specs.Prelude.{◌≡◌, ℕ, ◌+◌, ◌≤◌, List, length, Decides, OnErr, IfOk, IfErr};
ghost use Rattle.canonical.specs.Files.{output_value};
ghost use Rattle.canonical.specs.Kinds.{Lawful};
ghost use Rattle.canonical.specs.Meanings.{a_derivation};
ghost use Rattle.canonical.specs.Order.{Member};
ghost use Rattle.derivation.specs.Questions.{output_name};
ghost use Rattle.store_path.specs.Names.{StorePath};
ghost use Rattle.checker.specs.Soundness.{SoundView};
ghost use Rattle.hash_modulo.specs.Paths.{file_name};
ghost use Rattle.hash_modulo.specs.Strings.{Limits};
ghost use Rattle.right_paths.specs.Views.{file_by};
ghost use Rattle.right_paths.specs.Worked.{full_store_path};
ghost use Rattle.checker.specs.Calls.{Put, Paths};
ghost use Rattle.checker.specs.Locating.{path_length, PathPut, OwnLocated, OutputLocated, FileLocated, LocatedIfRead, PathRefused};
ghost use Rattle.checker.specs.Seen.{view_of, view_in};
ghost use Rattle.checker.specs.Settling.{kind_of};

use super::settling::hash_in;
use super::writing::write_text;
use super::{Checker, OpenSet};
use crate::refused::CallRefusal;
use aterm::Output;
use derivation::read_file;
use image::File;
use judge::{RightPath, sorted_file};
use right_paths::{
    Digits, FileOutput, MaskedText, OutputName, SortedFile, Word, hash_inputs, is_fixed, name_of,
    pour,
};
use sink::{Counter, DigestSink, ToSink};

// Whether a text is no longer than this.
fn fits<T: ToSink>(what: &T, room: usize) -> bool
    ensures { Decides result (length (T.ToSink.bytes what.now) ≤ room) }
{
    let mut counter = Counter::new();
    what.write_to(&mut counter).is_ok() && counter.count() <= room as u64
}

// How many bytes of a store path stand before its name: `/nix/store/`, 32 digits and a hyphen.
const BEFORE_NAME: usize = 44;

// Whether a store path with this name fits.
fn has_room<N: ToSink>(name: &N, out: &[u8]) -> bool
    ensures { Decides result (path_length (N.ToSink.bytes name.now) ≤ length out.now) }
{
    BEFORE_NAME <= out.len() && fits(name, out.len() - BEFORE_NAME)
}

// The store path with these digits and this name, from the buffer's start.
fn put_path<N: ToSink + Copy>(digits: Digits, name: N, out: &mut [u8]) -> usize
    requires { path_length (N.ToSink.bytes name) ≤ length out.now }
    ensures { Put (full_store_path digits.bytes (N.ToSink.bytes name)) out.old result out.new }
{
    // Not reached: there is room for it.
    write_text(&RightPath { digits, name }, out).unwrap()
}

// The own path of a file.
fn write_own_path<S: DigestSink>(
    of: SortedFile<'_>,
    out: &mut [u8],
    sink: &mut S,
) -> Result<usize, CallRefusal>
    requires limits { Limits of.path.now (file_by of) }
    requires lawful { Lawful a_derivation (file_by of) }
    ensures put { PathPut (path_length (file_name of.entry.path.now)) (OwnLocated (kind_of S.Sink.step S.DigestSink.start S.DigestSink.capacity S.DigestSink.answered S.DigestSink.wide) of.entry.path.now (file_by of.entry) (S.Sink.held sink.old).meaning) out.old (S.Sink.held sink.old).meaning result out.new (S.Sink.held sink.new).meaning }
    ensures same { OnErr result ((out.new ≡ out.old) × (sink.new ≡ sink.old)) }
{
    let name = Word {
        bytes: name_of(of.path),
    };
    if !has_room(&name, out) {
        return Err(CallRefusal::Short);
    }
    let digits = of.own_path(sink).value;
    Ok(put_path(digits, name, out))
}

impl<'a> OpenSet<'a> {
    // The digits of the path of an output: of a fixed file by what is given, else by the masked text.
    fn output_digits<S: DigestSink>(
        &self,
        of: SortedFile<'_>,
        output: Output,
        sink: &mut S,
    ) -> Digits
        requires limits { Limits of.path.now (file_by of) }
        requires lawful { Lawful a_derivation (file_by of) }
        requires there { Member (output_value of.text.now output) (file_by of).0 }
        ensures { OutputLocated (kind_of S.Sink.step S.DigestSink.start S.DigestSink.capacity S.DigestSink.answered S.DigestSink.wide) (view_in self.now) of.entry.path.now (file_by of.entry) (output_value of.entry.text.now output) (S.Sink.held sink.old).meaning (full_store_path result.bytes (output_name of.entry.path.now (output_value of.entry.text.now output).0)) (S.Sink.held sink.new).meaning }
    {
        let SortedFile { path, text, file } = of;
        let output = FileOutput { path, text, output };
        if is_fixed(text, file) {
            return output.fixed_path(sink).value;
        }
        let rows = file.inputs.as_slice();
        let hashes = self.input_hashes(text, rows);
        let inputs = &hash_inputs(&file.inputs, &hashes[..rows.len()]);
        let masked = pour(&MaskedText { of, inputs }, sink).value;
        output.path_by(masked, sink).value
    }

    // The path of an output.
    fn write_output_path<S: DigestSink>(
        &self,
        of: SortedFile<'_>,
        output: Output,
        out: &mut [u8],
        sink: &mut S,
    ) -> Result<usize, CallRefusal>
        requires limits { Limits of.path.now (file_by of) }
        requires lawful { Lawful a_derivation (file_by of) }
        requires there { Member (output_value of.text.now output) (file_by of).0 }
        ensures put { PathPut (path_length (output_name of.entry.path.now (output_value of.entry.text.now output).0)) (OutputLocated (kind_of S.Sink.step S.DigestSink.start S.DigestSink.capacity S.DigestSink.answered S.DigestSink.wide) (view_in self.now) of.entry.path.now (file_by of.entry) (output_value of.entry.text.now output) (S.Sink.held sink.old).meaning) out.old (S.Sink.held sink.old).meaning result out.new (S.Sink.held sink.new).meaning }
        ensures same { OnErr result ((out.new ≡ out.old) × (sink.new ≡ sink.old)) }
    {
        let name = OutputName {
            path: of.path,
            out: of.said(output.name),
        };
        if !has_room(&name, out) {
            return Err(CallRefusal::Short);
        }
        let digits = self.output_digits(of, output, sink);
        Ok(put_path(digits, name, out))
    }

    // Right path `j` of a file: 0 is its own, from 1 on its outputs.
    fn write_right_path<S: DigestSink>(
        &self,
        of: SortedFile<'_>,
        j: usize,
        out: &mut [u8],
        sink: &mut S,
    ) -> Result<usize, CallRefusal>
        requires limits { Limits of.path.now (file_by of) }
        requires lawful { Lawful a_derivation (file_by of) }
        ensures located { FileLocated (kind_of S.Sink.step S.DigestSink.start S.DigestSink.capacity S.DigestSink.answered S.DigestSink.wide) (view_in self.now) of.entry.path.now (file_by of.entry) j out.old (S.Sink.held sink.old).meaning result out.new (S.Sink.held sink.new).meaning }
        ensures same { OnErr result ((out.new ≡ out.old) × (sink.new ≡ sink.old)) }
    {
        if j == 0 {
            return write_own_path(of, out, sink);
        }
        let rows = of.file.outputs.as_slice();
        let Some(row) = rows.get(j - 1) else {
            return Err(CallRefusal::NoOutput);
        };
        self.write_output_path(of, row.value, out, sink)
    }

    // Right path `j` of a file, if it reads.
    fn write_path<S: DigestSink>(
        &self,
        file: File<'_>,
        j: usize,
        out: &mut [u8],
        sink: &mut S,
    ) -> Result<usize, CallRefusal>
        requires stored { StorePath file.path.now }
        requires near { length file.path.now ≤ 255 }
        requires short { length file.text.now ≤ 262144 }
        ensures located { LocatedIfRead (kind_of S.Sink.step S.DigestSink.start S.DigestSink.capacity S.DigestSink.answered S.DigestSink.wide) (view_in self.now) file.entry.path.now file.entry.text.now j out.old (S.Sink.held sink.old).meaning result out.new (S.Sink.held sink.new).meaning }
        ensures same { OnErr result ((out.new ≡ out.old) × (sink.new ≡ sink.old)) }
    {
        let File { path, text } = file;
        // Not reached where a hash is kept: such a file reads.
        let Ok(read) = read_file(path, text) else {
            return Err(CallRefusal::NoHash);
        };
        let file = &sorted_file(path, text, &read);
        self.write_right_path(SortedFile { path, text, file }, j, out, sink)
    }

    // The same by the file's number, if it is settled with a hash.
    fn path<S: DigestSink>(
        &self,
        number: usize,
        j: usize,
        out: &mut [u8],
        sink: &mut S,
    ) -> Result<usize, CallRefusal>
        ensures located { SoundView (kind_of S.Sink.step S.DigestSink.start S.DigestSink.capacity S.DigestSink.answered S.DigestSink.wide) (view_in self.now) → Paths (kind_of S.Sink.step S.DigestSink.start S.DigestSink.capacity S.DigestSink.answered S.DigestSink.wide) (view_in self.now) number j out.old (S.Sink.held sink.old).meaning result out.new (S.Sink.held sink.new).meaning }
        ensures written { IfOk result (λ n. (q : List ℕ) × Put q out.old n out.new) }
        ensures refused { IfErr result (PathRefused (view_in self.now) number j (length out.old)) }
        ensures same { OnErr result ((out.new ≡ out.old) × (sink.new ≡ sink.old)) }
    {
        let state = self.state(number)?;
        if hash_in(state).is_none() {
            return Err(CallRefusal::NoHash);
        }
        let file = self.file(number)?;
        self.write_path(file, j, out, sink)
    }
}

impl<'a> Checker<'a> {
    // Right path `j` of a file, from the buffer's start, digested anew; a refusal leaves the buffer and the sink.
    // What it answers is said where all files were settled with sinks of this kind.
    pub fn path<S: DigestSink>(
        &self,
        file: usize,
        j: usize,
        out: &mut [u8],
        sink: &mut S,
    ) -> Result<usize, CallRefusal>
        ensures located { SoundView (kind_of S.Sink.step S.DigestSink.start S.DigestSink.capacity S.DigestSink.answered S.DigestSink.wide) (view_of self.now) → Paths (kind_of S.Sink.step S.DigestSink.start S.DigestSink.capacity S.DigestSink.answered S.DigestSink.wide) (view_of self.now) file j out.old (S.Sink.held sink.old).meaning result out.new (S.Sink.held sink.new).meaning }
        ensures written { IfOk result (λ n. (q : List ℕ) × Put q out.old n out.new) }
        ensures refused { IfErr result (PathRefused (view_of self.now) file j (length out.old)) }
        ensures same { OnErr result ((out.new ≡ out.old) × (sink.new ≡ sink.old)) }
    {
        let set = self.set()?;
        set.path(file, j, out, sink)
    }
}
