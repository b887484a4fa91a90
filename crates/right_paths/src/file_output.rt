// What is digested for one output of a file.
ghost use Rattle.std.specs.Prelude.{◌≡◌, ◌≤◌, ◌++◌, codes};
ghost use Rattle.canonical.specs.Files.{said_in};
ghost use Rattle.derivation.specs.Questions.{output_name};
ghost use Rattle.hash_modulo.specs.Hashes.{fixed_string};
ghost use Rattle.hash_modulo.specs.Paths.{path_string};
ghost use Rattle.sink.specs.Numerals.{hex};
ghost use Rattle.right_paths.specs.Pouring.{Short};
ghost use Rattle.right_paths.specs.Views.{said_by, output_by};
ghost use Rattle.right_paths.specs.Worked.{FixedShort, LocatedBy, FixedWorked, FixedRest};

use crate::digests::pour;
use crate::fixed_strings::InnerString;
use crate::hashes::{Counted, Digits, FileHashes};
use crate::locating::locate;
use crate::names::OutputName;
use crate::parts::{Hex, Joined, Word};
use crate::path_string::PathString;
use crate::said::Said;
use aterm::{Output, Span};
use hash_rows::Hash;
use sink::{DigestSink, Sink};

// An output of the file at `path`, as `text` says it.
#[derive(Clone, Copy)]
pub struct FileOutput<'a> {
    pub path: &'a [u8],
    pub text: &'a [u8],
    pub output: Output,
}

impl<'a> FileOutput<'a> {
    // A string of the output.
    fn said(&self, span: Span) -> Said<'a>
        ensures { said_by result ≡ said_in self.now.text.now span }
    {
        Said::new(self.text, span)
    }

    // Its path in a file that is not fixed, by the masked hash.
    pub fn path_by<S: DigestSink>(&self, masked: [u8; 32], sink: &mut S) -> Counted<Digits>
        requires { Short (path_string (codes "output:" ++ (output_by self.now).0) (hex masked) (output_name self.now.path.now (output_by self.now).0)) }
        ensures { LocatedBy S.Sink.step S.DigestSink.start S.DigestSink.capacity S.DigestSink.answered (S.Sink.held sink.old).meaning (path_string (codes "output:" ++ (output_by self.now).0) (hex masked) (output_name self.now.path.now (output_by self.now).0)) result.value.bytes result.count (S.Sink.held sink.new).meaning }
    {
        let out = self.said(self.output.name);
        let string = PathString {
            kind: Joined {
                first: Word { bytes: b"output:" },
                rest: out,
            },
            hash: Hex { digest: masked },
            name: OutputName {
                path: self.path,
                out,
            },
        };
        locate(&string, sink)
    }

    // Its path in a fixed file: of a source by the hash that is given, else by the digest of what is given.
    pub fn fixed_path<S: DigestSink>(&self, sink: &mut S) -> Counted<Digits>
        requires { FixedShort self.now.path.now (output_by self.now) }
        ensures { FixedWorked S.Sink.step S.DigestSink.start S.DigestSink.capacity S.DigestSink.answered self.now.path.now (output_by self.now) (S.Sink.held sink.old).meaning result.value.bytes result.count (S.Sink.held sink.new).meaning }
    {
        let out = self.said(self.output.name);
        let algorithm = self.said(self.output.algorithm);
        let hash = self.said(self.output.hash);
        let name = OutputName {
            path: self.path,
            out,
        };
        if algorithm.says(b"r:sha256") {
            let source = PathString {
                kind: Word { bytes: b"source" },
                hash,
                name,
            };
            return locate(&source, sink);
        }
        let inner = pour(&InnerString { algorithm, hash }, sink);
        let digest = inner.value;
        let given = PathString {
            kind: Word {
                bytes: b"output:out",
            },
            hash: Hex { digest },
            name,
        };
        let outer = locate(&given, sink);
        Counted {
            value: outer.value,
            count: inner.count + outer.count,
        }
    }

    // All that is digested for a fixed file, of which this is the output, after its own path.
    pub(crate) fn hash_fixed<S: DigestSink>(&self, own: Counted<Digits>, sink: &mut S) -> FileHashes
        requires short { Short (fixed_string (output_by self.now)) }
        requires paths { FixedShort self.now.path.now (output_by self.now) }
        requires few { own.count ≤ 2097152 }
        ensures { FixedRest S.Sink.step S.DigestSink.start S.DigestSink.capacity S.DigestSink.answered self.now.path.now (output_by self.now) own (S.Sink.held sink.old).meaning result (S.Sink.held sink.new).meaning }
    {
        let algorithm = self.said(self.output.algorithm);
        let hash = self.said(self.output.hash);
        let path = self.said(self.output.path);
        // The string of a fixed file's hash: the inner one, and the stated path.
        let string = Joined {
            first: InnerString { algorithm, hash },
            rest: path,
        };
        let whole = pour(&string, sink);
        let digest = whole.value;
        let only = self.fixed_path(sink);
        FileHashes {
            own: own.value,
            hash: Hash { bytes: digest },
            masked: None,
            outputs: [only.value; 16],
            count: own.count + whole.count + only.count,
        }
    }
}
