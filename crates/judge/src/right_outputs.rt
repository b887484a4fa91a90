// What the right paths of a file's outputs are told by.
use right_paths::{Digits, SortedFile};

// A file with its rows sorted, and the digits of the right paths of its outputs beside them.
// The digits are no part of the output rows: they come as a table of their own, and one of pairs would be a copy of both for the one walk that `zip` makes.
#[derive(Clone, Copy)]
pub struct RightOutputs<'a> {
    pub of: SortedFile<'a>,
    pub digits: &'a [Digits; 16],
}
