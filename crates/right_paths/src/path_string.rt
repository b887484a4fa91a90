// The string whose digest makes a store path.
ghost use Rattle.hash_modulo.specs.Paths.{path_string};

use sink::{Full, Sink, ToSink};

// A kind, a hash and a name: `kind:sha256:hash:/nix/store:name`.
#[derive(Clone, Copy)]
pub struct PathString<K, H, N> {
    pub kind: K,
    pub hash: H,
    pub name: N,
}

impl<K: ToSink, H: ToSink, N: ToSink> ToSink for PathString<K, H, N> {
    ghost bytes = { λ s. path_string (K.ToSink.bytes s.kind) (H.ToSink.bytes s.hash) (N.ToSink.bytes s.name) };

    fn write_to<S: Sink>(&self, sink: &mut S) -> Result<(), Full> {
        self.kind.write_to(sink)?;
        sink.write(b":sha256:")?;
        self.hash.write_to(sink)?;
        sink.write(b":/nix/store:")?;
        self.name.write_to(sink)
    }
}
