// Bytes and parts of an image.
ghost use Rattle.std.specs.Prelude.{◌≡◌, ℕ, ◌+◌, ◌<◌, ◌≤◌, length, take, drop, slice_index, Decides};

// The N bytes from `at` on.
pub fn bytes_at<const N: usize>(bytes: &[u8], at: usize) -> [u8; N]
    requires { at + N ≤ length bytes.now }
    ensures { (i : ℕ) → i < N → slice_index result i ≡ slice_index bytes.now (at + i) }
{
    *bytes[at..].first_chunk().unwrap()
}

// Where a part of the image begins, and how long it is.
#[derive(Clone, Copy)]
pub struct Extent {
    pub start: usize,
    pub len: usize,
}

impl Extent {
    // Whether it lies inside the image; an empty part at the very end does.
    pub fn fits(self, bytes: &[u8]) -> bool
        ensures { Decides result (self.start + self.len ≤ length bytes.now) }
    {
        self.start
            .checked_add(self.len)
            .is_some_and(|end| end <= bytes.len())
    }

    // The part itself. One that reaches past the image ends with it.
    pub fn cut<'a>(self, bytes: &'a [u8]) -> &'a [u8]
        ensures { result.now ≡ take self.len (drop self.start bytes.now) }
    {
        let rest = &bytes[self.start.min(bytes.len())..];
        &rest[..self.len.min(rest.len())]
    }
}
