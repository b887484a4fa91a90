// An image that has opened.
ghost use Rattle.image.specs.Opening.{Opens};

use crate::chain::Chain;

pub mod open;

// The chain of its slots, over bytes that are kept by reference.
// The clauses name its bytes and its number of files apart: the laws speak of any list of bytes, of which no `Image` need be made.
#[derive(Clone, Copy)]
pub struct Image<'a> {
    chain: Chain<'a>,
    ghost opens: { ∥ Opens chain.bytes.now chain.count ∥₁ },
}

// One file of an image: its store path and its text.
#[derive(Clone, Copy)]
pub struct File<'a> {
    pub path: &'a [u8],
    pub text: &'a [u8],
}
