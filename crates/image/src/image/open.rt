// Opening an image, and its files by their numbers.
ghost use Rattle.std.specs.Prelude.{◌≡◌, ℕ, ◌+◌, ◌*◌, ◌≤◌, [], ◌∷◌, length, MatchResult};
ghost use Rattle.image.specs.Chain.{Sized, Slotted};
ghost use Rattle.image.specs.Files.{Opened, FileAt, bytes_of, files_of};
ghost use Rattle.image.specs.Opening.{Refused, FilesTold, SomeAnswer, OneAnswer};

use super::{File, Image};
use crate::chain::Chain;
use crate::fields::bytes_at;
use crate::questions::{ask_each, is_named, is_new};
use crate::refusal::Refusal;

// The longest image.
const LONGEST: usize = 4194304;

// The most slots that an image has.
const MOST_SLOTS: u16 = 256;

// The questions on the whole image: its size, and its table of slots.
fn ask_whole(bytes: &[u8]) -> Result<(), Refusal>
    ensures { MatchResult result (λ _. Sized bytes.now × Slotted bytes.now) (Refused bytes.now) }
{
    if bytes.len() < 4 || bytes.len() > LONGEST {
        return Err(Refusal::Size);
    }
    let count = u16::from_le_bytes(bytes_at(bytes, 0));
    if count > MOST_SLOTS || 4 + 16 * count as usize > bytes.len() {
        return Err(Refusal::Slots);
    }
    Ok(())
}

// The questions on each file of the chain, each put to all files before the next.
fn ask_files(chain: &Chain<'_>) -> Result<(), Refusal>
    ensures { FilesTold chain.now.bytes.now chain.now.count result }
{
    ask_each(chain, |n| chain.slot(n).is_inside()).map_err(Refusal::Part)?;
    ask_each(chain, |n| is_named(chain, n)).map_err(Refusal::Path)?;
    ask_each(chain, |n| is_new(chain, n)).map_err(Refusal::Repeated)
}

impl<'a> Image<'a> {
    // The image of no files: four zero bytes.
    pub fn empty() -> Image<'a>
        ensures { (bytes_of result ≡ 0 ∷ 0 ∷ 0 ∷ 0 ∷ []) × (files_of result ≡ 0) }
    {
        Image {
            chain: Chain::empty(&[0, 0, 0, 0]),
        }
    }

    // Puts every question to the bytes, in their order: the image over them, or the first question with the answer no.
    pub fn open(bytes: &'a [u8]) -> Result<Image<'a>, Refusal>
        ensures { Opened bytes.entry result }
    {
        ask_whole(bytes)?;
        let chain = Chain::follow(bytes)?;
        ask_files(&chain)?;
        Ok(Image { chain })
    }

    // How many files the image has.
    pub fn count(&self) -> usize
        ensures value { result ≡ files_of self.now }
        ensures few { result ≤ 256 }
    {
        self.chain.count
    }

    // The file of a number, counted from 1.
    pub fn file(&self, number: usize) -> Option<File<'a>>
        ensures { FileAt (bytes_of self.now) (files_of self.now) number result }
    {
        let slot = self.chain.get(number.checked_sub(1)?)?;
        Some(File {
            path: slot.named_path(),
            text: slot.named_text(),
        })
    }
}

// Every image has an answer, and one only.
pub fn one_answer() -> bool
    ensures some { SomeAnswer }
    ensures one { OneAnswer }
{
    true
}
