// The digest of one string, and the law by which writers are put together.
ghost use Rattle.std.specs.Prelude.{◌≤◌};
ghost use Rattle.sink.specs.Digest.{Digests};
ghost use Rattle.sink.specs.Write.{Joins};

use crate::{DigestSink, Full};

// Begins the sink, writes the bytes and answers their digest; refused where they pass the sink's capacity, which is a mebibyte at least.
pub fn digest_of<S: DigestSink>(sink: &mut S, bytes: &[u8]) -> Result<[u8; 32], Full>
    ensures large { 1048576 ≤ S.capacity }
    ensures digests { Digests S.Sink.step S.start S.capacity S.answered (S.Sink.held sink.old).meaning bytes.now result (S.Sink.held sink.new).meaning }
{
    sink.begin();
    sink.write(bytes)?;
    Ok(sink.answer())
}

// Where the first fits, writing one string and then another is writing the two joined.
pub fn writing_joins() -> bool
    ensures { Joins }
{
    true
}
