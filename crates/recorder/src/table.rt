// A recorder's table: how it is filled, and how it is copied out.
ghost use Rattle.std.specs.Prelude.{◌≡◌, ◌+◌, min};
ghost use Rattle.recorder.specs.Record.{zeros, counts, laid, Copied};

use sink::Full;

// The first bytes taken since begin, and the number of all that were taken. An array with a count, and no vector: the count runs on past
// the array's end, and the zeros behind the bytes are part of the recorder's state.
#[derive(Drop)]
pub struct Table {
    pub bytes: [u8; 4096],
    pub count: u32,
}

// By hand: its clause says that the bytes are zeros, which of a derived one would have to be shown item by item.
impl Default for Table {
    ghost is_default = { λ t. (t.count ≡ 0) × (t.bytes ≡ zeros 4096) };

    fn default() -> Table {
        Table {
            bytes: [0; 4096],
            count: 0,
        }
    }
}

// The count after n more bytes: it stops at the largest number of 32 bits.
fn count_on(count: u32, n: usize) -> u32
    ensures { result ≡ min (count + n) 4294967295 }
{
    count.saturating_add(u32::try_from(n).unwrap_or(u32::MAX))
}

impl Table {
    // Takes the bytes up, behind those that it has, as far as the array reaches.
    pub fn keep(&mut self, bytes: &[u8])
        ensures { (self.new.count ≡ counts self.old.count bytes.now) × (self.new.bytes ≡ laid self.old.bytes self.old.count bytes.now) }
    {
        let at = self.count.min(4096) as usize;
        let n = bytes.len().min(4096 - at);
        self.bytes[at..at + n].copy_from_slice(&bytes[..n]);
        self.count = count_on(self.count, bytes.len());
    }

    // Where `out` is short it is left as it was.
    pub fn copy_to(&self, out: &mut [u8]) -> Result<usize, Full>
        ensures { Copied self.now.count self.now.bytes out.old result out.new }
    {
        let n = self.count.min(4096) as usize;
        if out.len() < n {
            return Err(Full);
        }
        out[..n].copy_from_slice(&self.bytes[..n]);
        Ok(n)
    }
}
