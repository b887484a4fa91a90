// The string that is digested for a fixed file's output.
ghost use Rattle.std.specs.Prelude.{[]};
ghost use Rattle.hash_modulo.specs.Paths.{inner_string};
ghost use Rattle.right_paths.specs.Views.{said_by};

use crate::said::Said;
use sink::{Full, Sink, ToSink};

// `fixed:out:`, the algorithm, `:`, the hash and `:`.
#[derive(Clone, Copy)]
pub struct InnerString<'a> {
    pub algorithm: Said<'a>,
    pub hash: Said<'a>,
}

impl<'a> ToSink for InnerString<'a> {
    ghost bytes = { λ s. inner_string ([], ([], (said_by s.algorithm, said_by s.hash))) };

    fn write_to<S: Sink>(&self, sink: &mut S) -> Result<(), Full> {
        sink.write(b"fixed:out:")?;
        self.algorithm.write_to(sink)?;
        sink.write(b":")?;
        self.hash.write_to(sink)?;
        sink.write(b":")
    }
}
