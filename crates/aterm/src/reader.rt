// A text that is read from the front on.
ghost use Rattle.std.specs.Prelude.{◌≤◌, length};

use crate::fault::{Cause, Fault};
use crate::part::Part;

// A text, and the place from which it is read on.
#[derive(Drop)]
pub struct Reader<'a> {
    pub(crate) text: &'a [u8],
    pub(crate) at: usize,
    ghost inside: { at ≤ length text.now },
}

impl<'a> Reader<'a> {
    ghost use Rattle.std.specs.Prelude.{◌≡◌, ◌+◌, ◌<◌, IfOk, OnOk};
    ghost use Rattle.aterm.specs.Reads.{Goes, Meets, Passes, begun, written_field, written_row};

    // A reader that has passed the bytes of `word`, with which the text begins.
    pub fn after(text: &'a [u8], word: &[u8]) -> Result<Reader<'a>, Fault>
        ensures word { Passes word.now text.now (begun result) }
        ensures text { IfOk result (λ r. r.text.now ≡ text.now) }
    {
        let mut reader = Reader { text, at: 0 };
        for b in word {
            reader.expect(*b)?;
        }
        Ok(reader)
    }

    // Passes the byte `b`, which has to stand here.
    pub fn expect(&mut self, b: u8) -> Result<(), Fault>
        ensures { Meets b self.old result self.new }
    {
        if self.text.get(self.at) == Some(&b) {
            self.at += 1;
            Ok(())
        } else {
            Err(Fault {
                place: self.at,
                cause: Cause::Byte,
            })
        }
    }

    // Reads a field, and the byte that closes it.
    pub fn field<T: Part>(&mut self, closing: u8) -> Result<T, Fault>
        ensures { Goes (written_field T.shape closing) (λ t at. T.holds t (at + 1)) self.old result self.new }
    {
        self.expect(T::open())?;
        let value = T::rest(self)?;
        self.expect(closing)?;
        Ok(value)
    }

    // Reads a row of a list that has room for `room` rows still.
    pub fn row<T: Part>(&mut self, room: usize) -> Result<T, Fault>
        ensures row { Goes (written_row T.shape room) (λ t at. T.holds t (at + 1)) self.old result self.new }
        ensures room { OnOk result ((0 < room) × (self.old.at < self.new.at)) }
    {
        let place = self.at;
        self.expect(T::open())?;
        if room == 0 {
            return Err(Fault {
                place,
                cause: Cause::Row,
            });
        }
        T::rest(self)
    }
}
