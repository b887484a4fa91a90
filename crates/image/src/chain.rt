// The chain of slots, followed from the header to index zero.
ghost use Rattle.std.specs.Prelude.{◌≡◌, ℕ, ◌+◌, ◌*◌, ◌<◌, ◌≤◌, length, Decides, MatchResult, MatchOption, slice_index};
ghost use Rattle.std.specs.List.{ContainsAt as Has};
ghost use Rattle.image.specs.Layout.{slot_count, link};
ghost use Rattle.image.specs.Chain.{Sized, Slotted, Chained};
ghost use Rattle.image.specs.Opening.{Refused};

use crate::fields::bytes_at;
use crate::refusal::Refusal;
use crate::slot::Slot;

// The bytes of an image, kept by reference, and the slots of its chain in order: the first `count` of a table.
// A table with a length: the library crates use no heap, and an image can be copied, which an `ArrayVec` cannot.
#[derive(Clone, Copy)]
pub struct Chain<'a> {
    pub bytes: &'a [u8],
    slots: [u16; 256],
    pub count: usize,
    ghost few: { count ≤ 256 },
    ghost are: { (m : ℕ) → m < count → slice_index slots m ≡ link bytes.now m },
    ghost some: { (m : ℕ) → m < count → 0 < link bytes.now m },
    ghost within: { (m : ℕ) → m < count → 4 + 16 * link bytes.now m ≤ length bytes.now },
}

// Whether an index is that of a slot, and of one that the chain has not had before.
fn may_follow(before: &[u16], count: u16, index: u16) -> bool
    ensures { Decides result ((index ≤ count) × (Has before.now index → ⊥)) }
{
    index <= count && !before.contains(&index)
}

impl<'a> Chain<'a> {
    // The chain of no slots.
    pub fn empty(bytes: &'a [u8]) -> Chain<'a>
        ensures bytes { result.bytes ≡ bytes.entry }
        ensures count { result.count ≡ 0 }
    {
        Chain {
            bytes,
            slots: [0; 256],
            count: 0,
        }
    }

    // The chain of an image, or the slot that holds its first bad index.
    pub fn follow(bytes: &'a [u8]) -> Result<Chain<'a>, Refusal>
        requires { (Sized bytes.now) × (Slotted bytes.now) }
        ensures { MatchResult result (λ c. (c.bytes ≡ bytes.entry) × Chained bytes.entry.now c.count) (Refused bytes.entry.now) }
    {
        let last = u16::from_le_bytes(bytes_at(bytes, 0));
        let mut slots = [0u16; 256];
        let mut count = 0;
        let mut slot = 0;
        let mut index = u16::from_le_bytes(bytes_at(bytes, 2));
        // Index 0 ends the chain, as the image's format says.
        // No `std::iter::successors`: it need not end, since the chain may run in a circle until `may_follow` says so.
        while index != 0 {
            if !may_follow(&slots[..count], last, index) {
                return Err(Refusal::Link(slot));
            }
            slots[count] = index;
            count += 1;
            slot = index;
            let here = Slot { bytes, index };
            index = here.next();
        }
        Ok(Chain {
            bytes,
            slots,
            count,
        })
    }

    // The slot after n links.
    pub fn get(&self, n: usize) -> Option<Slot<'a>>
        ensures { MatchOption result (self.now.count ≤ n) (λ s. (n < self.now.count) × (s.bytes ≡ self.now.bytes) × (s.index ≡ link self.now.bytes.now n)) }
    {
        // An `if`: the check finds it alone, where `then` would need a clause on its closure and a proof by hand.
        if n < self.count {
            Some(self.slot(n))
        } else {
            None
        }
    }

    // The same where it is there.
    pub fn slot(&self, n: usize) -> Slot<'a>
        requires { n < self.now.count }
        ensures { (result.bytes ≡ self.now.bytes) × (result.index ≡ link self.now.bytes.now n) }
    {
        let index = self.slots[n];
        Slot {
            bytes: self.bytes,
            index,
        }
    }
}
