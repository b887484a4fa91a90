// A writer over the caller's slice.
ghost use Rattle.std.specs.Prelude.{◌≡◌, ◌≤◌, length, take};
ghost use Rattle.sink.specs.Buffer.{pushing, buffered, buffered_wraps};

use crate::{Full, Sink};

// A lent buffer, of which the first `at` bytes are written. A slice with a place beside it: the bytes are the caller's, and those past `at`
// have to stay, so no vector serves, which owns its bytes.
#[derive(Drop)]
pub struct BufferWriter<'a> {
    buf: &'a mut [u8],
    at: usize,
    ghost within: { at ≤ length buf.now },
}

impl<'a> Sink for BufferWriter<'a> {
    ghost step = { pushing };

    ghost held = { λ s. buffered s.buf.now s.buf.ghost_name s.at };

    ghost wraps = { λ s. buffered_wraps s.buf.now s.buf.ghost_name s.at };

    fn write(&mut self, bytes: &[u8]) -> Result<(), Full> {
        if bytes.len() > self.buf.len() - self.at {
            return Err(Full);
        }
        let end = self.at + bytes.len();
        self.buf[self.at..end].copy_from_slice(bytes);
        self.at = end;
        Ok(())
    }
}

impl<'a> BufferWriter<'a> {
    pub fn new(buf: &'a mut [u8]) -> BufferWriter<'a>
        ensures { (result.buf ≡ buf.entry) × (result.at ≡ 0) }
    {
        BufferWriter { buf, at: 0 }
    }

    // The number of bytes written.
    pub fn count(&self) -> usize
        ensures { result ≡ length (take self.now.at self.now.buf.now) }
    {
        self.at
    }
}
