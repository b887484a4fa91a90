// What is digested for one file, in order: for its own path, its hash, its masked hash unless it is fixed, and its outputs' paths.
ghost use Rattle.std.specs.Prelude.{◌≡◌, ◌≤◌, ◌⊎◌, List, Decides, MatchOption};
ghost use Rattle.std.specs.List.{AllByRecursion};
ghost use Rattle.canonical.specs.Files.{output_value, derivation_value};
ghost use Rattle.canonical.specs.Kinds.{Lawful};
ghost use Rattle.canonical.specs.Meanings.{a_derivation};
ghost use Rattle.hash_modulo.specs.Hashes.{Fixed};
ghost use Rattle.hash_modulo.specs.Sets.{Bytes, Row};
ghost use Rattle.hash_modulo.specs.Strings.{Blank, Limits};
ghost use Rattle.sink.specs.Digest.{digest};
ghost use Rattle.right_paths.specs.Inputs.{Aligned, RowsRight};
ghost use Rattle.right_paths.specs.Views.{file_by, said_of, output_of};
ghost use Rattle.right_paths.specs.Worked.{Workable, FixedBy, OwnWorked, OutputsWorked, TextRest, FileWorked};

use crate::digests::pour;
use crate::file_output::FileOutput;
use crate::hashes::{Counted, Digits, FileHashes};
use crate::inputs::hash_inputs;
use crate::locating::locate;
use crate::names::name_of;
use crate::parts::{Hex, Word};
use crate::path_string::PathString;
use crate::references::OwnKind;
use crate::said::Said;
use crate::texts::{CanonicalText, MaskedText, WholeText};
use aterm::{Derivation, Output, Span};
use hash_rows::Hash;
use sink::{DigestSink, Sink};

// The file at `path`, as `text` says it. Its methods that digest serve the crates above, which show that its rows are sorted and its
// strings short. That stands in their clauses and in no ghost field: judge takes such a file too, and asks nothing of how long they are.
#[derive(Clone, Copy)]
pub struct SortedFile<'a> {
    pub path: &'a [u8],
    pub text: &'a [u8],
    pub file: &'a Derivation,
}

// The output of a fixed file: of a file that reads, an output with an algorithm is the only one.
fn fixed_output(text: &[u8], file: &Derivation) -> Option<Output>
    requires { Fixed (derivation_value text.now file.now) ⊎ AllByRecursion Blank (derivation_value text.now file.now).0 }
    ensures { MatchOption result (Fixed (derivation_value text.now file.now) → ⊥) (λ o. FixedBy (derivation_value text.now file.now) (output_value text.now o)) }
{
    let first = file.outputs.as_slice().first()?;
    let algorithm = Said::new(text, first.value.algorithm);
    (!algorithm.is_blank()).then_some(first.value)
}

// Whether the file is fixed.
// Not derivation's `is_fixed`, which is asked before it is known whether the file reads, and so looks at all that makes a file fixed.
pub fn is_fixed(text: &[u8], file: &Derivation) -> bool
    requires { Fixed (derivation_value text.now file.now) ⊎ AllByRecursion Blank (derivation_value text.now file.now).0 }
    ensures { Decides result (Fixed (derivation_value text.now file.now)) }
{
    fixed_output(text, file).is_some()
}

impl<'a> SortedFile<'a> {
    // A string of its text.
    pub fn said(&self, span: Span) -> Said<'a>
        ensures { result ≡ said_of self.now span }
    {
        Said::new(self.text, span)
    }

    // An output of it.
    fn output(&self, output: Output) -> FileOutput<'a>
        ensures { result ≡ output_of self.now output }
    {
        FileOutput {
            path: self.path,
            text: self.text,
            output,
        }
    }

    // The file's own path: its canonical text, then the string of the path.
    pub fn own_path<S: DigestSink>(&self, sink: &mut S) -> Counted<Digits>
        requires limits { Limits self.now.path.now (file_by self.now) }
        requires lawful { Lawful a_derivation (file_by self.now) }
        ensures { OwnWorked S.Sink.step S.DigestSink.start S.DigestSink.capacity S.DigestSink.answered self.now.path.now (file_by self.now) (S.Sink.held sink.old).meaning result.value.bytes result.count (S.Sink.held sink.new).meaning }
    {
        let whole = pour(&CanonicalText { of: *self }, sink);
        let digest = whole.value;
        let name = name_of(self.path);
        let string = PathString {
            kind: OwnKind { of: *self },
            hash: Hex { digest },
            name: Word { bytes: name },
        };
        let own = locate(&string, sink);
        Counted {
            value: own.value,
            count: whole.count + own.count,
        }
    }

    // The paths of all outputs of a file that is not fixed, in their order.
    fn output_paths<S: DigestSink>(&self, masked: [u8; 32], sink: &mut S) -> Counted<[Digits; 16]>
        requires { Limits self.now.path.now (file_by self.now) }
        ensures { (t : Bytes) → masked ≡ digest S.Sink.step S.DigestSink.start S.DigestSink.answered t → OutputsWorked S.Sink.step S.DigestSink.start S.DigestSink.capacity S.DigestSink.answered self.now.path.now t (file_by self.now).0 (S.Sink.held sink.old).meaning result.value result.count (S.Sink.held sink.new).meaning }
    {
        let mut digits = [Digits::default(); 16];
        let mut count = 0;
        let rows = self.file.outputs.as_slice();
        // As `array::from_fn` the proof did not close: that the count stays small at each call, and what the closure leaves of the sink.
        for (i, row) in rows.iter().enumerate() {
            let located = self.output(row.value).path_by(masked, sink);
            digits[i] = located.value;
            count += located.count;
        }
        Counted {
            value: digits,
            count,
        }
    }

    // All that is digested for a file that is not fixed, after its own path.
    fn hash_text<S: DigestSink>(
        &self,
        hashes: &[Hash],
        own: Counted<Digits>,
        sink: &mut S,
    ) -> FileHashes
        requires works { Workable self.now.path.now (file_by self.now) hashes.now }
        requires few { own.count ≤ 2097152 }
        ensures { (g : Bytes → Bytes) → Aligned g (file_by self.now).1.0 hashes.now → (rows : List Row) × RowsRight g (file_by self.now).1.0 rows × TextRest S.Sink.step S.DigestSink.start S.DigestSink.capacity S.DigestSink.answered self.now.path.now (file_by self.now) rows own (S.Sink.held sink.old).meaning result (S.Sink.held sink.new).meaning }
    {
        let of = *self;
        let inputs = &hash_inputs(&self.file.inputs, hashes);
        let whole = pour(&WholeText { of, inputs }, sink);
        let masked = pour(&MaskedText { of, inputs }, sink);
        // Arrays go by a name of their own into a struct: the borrow checker asks it.
        let hash = whole.value;
        let masked_hash = masked.value;
        let outputs = self.output_paths(masked_hash, sink);
        let digits = outputs.value;
        FileHashes {
            own: own.value,
            hash: Hash { bytes: hash },
            masked: Some(Hash { bytes: masked_hash }),
            outputs: digits,
            count: own.count + whole.count + masked.count + outputs.count,
        }
    }

    // The hash, the masked hash and the right paths of the file, where hashes[i] is the hash of the file that its input row i names.
    pub fn hash<S: DigestSink>(&self, hashes: &[Hash], sink: &mut S) -> FileHashes
        requires { Workable self.now.path.now (file_by self.now) hashes.now }
        ensures { (g : Bytes → Bytes) → Aligned g (file_by self.now).1.0 hashes.now → FileWorked S.Sink.step S.DigestSink.start S.DigestSink.capacity S.DigestSink.answered self.now.path.now g (file_by self.now) (S.Sink.held sink.old).meaning result (S.Sink.held sink.new).meaning }
    {
        let own = self.own_path(sink);
        match fixed_output(self.text, self.file) {
            Some(only) => self.output(only).hash_fixed(own, sink),
            None => self.hash_text(hashes, own, sink),
        }
    }
}
