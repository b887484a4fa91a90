// A right path, by its digits.
ghost use Rattle.right_paths.specs.Worked.{full_store_path};

use right_paths::Digits;
use sink::{Full, Sink, ToSink};

// The store path with these digits and this name: the file's own, or that of an output.
#[derive(Clone, Copy)]
pub struct RightPath<N> {
    pub digits: Digits,
    pub name: N,
}

impl<N: ToSink> ToSink for RightPath<N> {
    ghost bytes = { λ s. full_store_path s.digits.bytes (N.ToSink.bytes s.name) };

    fn write_to<S: Sink>(&self, sink: &mut S) -> Result<(), Full> {
        sink.write(b"/nix/store/")?;
        sink.write(&self.digits.bytes)?;
        sink.write(b"-")?;
        self.name.write_to(sink)
    }
}
