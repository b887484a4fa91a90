// A slot of an image, and what its fields say.
ghost use Rattle.std.specs.Prelude.{◌≡◌, ℕ, ◌+◌, ◌*◌, ◌<◌, ◌≤◌, length, slice_index, Decides};
ghost use Rattle.image.specs.Layout.{le32, slot_at, next_index, path_length, path_offset, text_length, text_offset, path_in, text_in};
ghost use Rattle.image.specs.Opening.{Inside};

use crate::fields::{Extent, bytes_at};

// The longest text that a slot may name.
const LONGEST_TEXT: usize = 262144;

// Slots are counted from 1, and each has 16 bytes, behind the 4 of the header.
#[derive(Clone, Copy)]
pub struct Slot<'a> {
    pub bytes: &'a [u8],
    pub index: u16,
    ghost some: { 0 < index },
    ghost within: { 4 + 16 * index ≤ length bytes.now },
}

impl<'a> Slot<'a> {
    // A field of N bytes, by its place in the slot.
    fn field<const N: usize>(self, place: usize) -> [u8; N]
        requires { place + N ≤ 16 }
        ensures { (i : ℕ) → i < N → slice_index result i ≡ slice_index self.entry.bytes.now (slot_at self.entry.index + place + i) }
    {
        bytes_at(self.bytes, 4 + 16 * (self.index as usize - 1) + place)
    }

    // The index of the slot that follows it in the chain; 0 ends it, as the image's format says.
    pub fn next(self) -> u16
        ensures { result ≡ next_index self.entry.bytes.now self.entry.index }
    {
        u16::from_le_bytes(self.field(0))
    }

    // The part of this length whose beginning stands in the field at `place`.
    fn part(self, place: usize, len: usize) -> Extent
        requires { place + 4 ≤ 16 }
        ensures start { result.start ≡ le32 self.entry.bytes.now (slot_at self.entry.index + place) }
        ensures len { result.len ≡ len }
    {
        let start = u32::from_le_bytes(self.field(place)) as usize;
        Extent { start, len }
    }

    fn path_extent(self) -> Extent
        ensures start { result.start ≡ path_offset self.entry.bytes.now self.entry.index }
        ensures len { result.len ≡ path_length self.entry.bytes.now self.entry.index }
    {
        let len = u16::from_le_bytes(self.field(2));
        self.part(4, len as usize)
    }

    fn text_extent(self) -> Extent
        ensures start { result.start ≡ text_offset self.entry.bytes.now self.entry.index }
        ensures len { result.len ≡ text_length self.entry.bytes.now self.entry.index }
    {
        let len = u32::from_le_bytes(self.field(12));
        self.part(8, len as usize)
    }

    // Whether its path and its text lie inside the image, and the text is not too long.
    pub fn is_inside(self) -> bool
        ensures { Decides result (Inside self.entry.bytes.now self.entry.index) }
    {
        let path = self.path_extent();
        let text = self.text_extent();
        path.fits(self.bytes) && text.fits(self.bytes) && text.len <= LONGEST_TEXT
    }

    // The path that it names.
    #[tactic(auto, unfolding(crate::specs::Layout::path_in))]
    pub fn named_path(self) -> &'a [u8]
        ensures { result.now ≡ path_in self.entry.bytes.now self.entry.index }
    {
        self.path_extent().cut(self.bytes)
    }

    // The text that it names.
    #[tactic(auto, unfolding(crate::specs::Layout::text_in))]
    pub fn named_text(self) -> &'a [u8]
        ensures { result.now ≡ text_in self.entry.bytes.now self.entry.index }
    {
        self.text_extent().cut(self.bytes)
    }
}
