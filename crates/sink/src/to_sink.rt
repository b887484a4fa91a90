// What can be written to any sink.
ghost use Rattle.std.specs.Prelude.{ℕ, List};
ghost use Rattle.sink.specs.Write.{Writes};

use crate::{Full, Sink};

// A string that can be written to any sink.
pub trait ToSink {
    ghost bytes: { Self → List ℕ };

    fn write_to<S: Sink>(&self, sink: &mut S) -> Result<(), Full>
        ensures { Writes S.Sink.step (S.Sink.held sink.old) (bytes self.now) result (S.Sink.held sink.new) };
}
