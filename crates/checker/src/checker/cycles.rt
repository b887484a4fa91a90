// Which files rest on which, and whether some file rests on itself.
ghost use Rattle.std.specs.Prelude.{◌≡◌, ◌+◌, ◌<◌, [], Some, None, slice_index_or};
ghost use Rattle.image.specs.Files.{files_of};
ghost use Rattle.checker.specs.Calls.{OnCycle, Circles};
ghost use Rattle.checker.specs.Seen.{view_of, view_in};
ghost use Rattle.checker.specs.Ways.{file_in, NamesFile, SaysNamed, NamedIn, Edge, Way, RowSays, RowRight, RowJoined, Through, AllSay, TurnsBack, flag_at};

use super::{Checker, OpenSet};
use crate::refused::CallRefusal;
use links::{Link, Links};
use std::array;

// The number of the file that a row names; 0 where there is none.
fn file_of(link: Option<Link>) -> usize
    ensures { result ≡ file_in link }
{
    match link {
        Some(link) => usize::from(link.file),
        None => 0,
    }
}

// Whether some row names the file of this number.
fn names(links: &Links, file: usize) -> bool
    ensures { SaysNamed links.now file result }
{
    links.rows[..links.count]
        .iter()
        .any(|link| file_of(*link) == file)
}

// Of each file, whether some row names it.
fn named(links: &Links) -> [bool; 256]
    ensures { RowSays result (λ b. NamesFile links.now (b + 1)) }
{
    array::from_fn(|before| names(links, before + 1))
}

// A row where no file is named. A function of its own, since at an arm of a `match` the proof has no name for the array.
fn unnamed() -> [bool; 256]
    ensures { RowSays result (λ b. NamedIn None (b + 1)) }
{
    [false; 256]
}

// The flags of a row, with those of the other one if that is on.
// With `||` and `&&` the proof did not close: of the closure's answer it then has no one term.
fn joined(row: &[bool; 256], on: bool, other: &[bool; 256]) -> [bool; 256]
    ensures { RowJoined row.now on other.now result }
{
    array::from_fn(|before| row[before] | (on & other[before]))
}

// Of every two files, by their numbers less one, whether the first rests on the second.
#[derive(Drop)]
struct Relation {
    rows: [[bool; 256]; 256],
}

impl Relation {
    // With what is reached by way of one more file. The closure has clauses: without them nothing is known of its answer here.
    fn through(&self, middle: usize) -> Relation
        requires { middle < 256 }
        ensures { Through self.now.rows middle result.rows }
    {
        let other = &self.rows[middle];
        Relation {
            rows: array::from_fn(
                |before|
                    requires { (before < 256) × (middle < 256) }
                    ensures { RowJoined (slice_index_or self.entry.now.rows before []) (flag_at self.entry.now.rows before middle) other.entry.now result }
                { joined(&self.rows[before], self.rows[before][middle], other) },
            ),
        }
    }

    // Whether the file of this number rests on itself.
    fn turns_back(&self, file: usize) -> bool
        ensures { TurnsBack self.now.rows file result }
    {
        (1..=256).contains(&file) && self.rows[file - 1][file - 1]
    }
}

impl<'a> OpenSet<'a> {
    // Which files the rows of one file name: none where it does not read.
    fn named_by(&self, file: usize) -> [bool; 256]
        ensures { RowRight self.now.files.links file result }
    {
        match self.files.links.get(file) {
            Some(links) => named(&links),
            None => unnamed(),
        }
    }

    // The same for every file.
    fn edges(&self) -> Relation
        ensures { AllSay result.rows (Edge self.now.files.links) }
    {
        Relation {
            rows: array::from_fn(
                |before|
                    requires { before < 256 }
                    ensures { RowRight self.entry.now.files.links (before + 1) result }
                { self.named_by(before + 1) },
            ),
        }
    }

    // Which files rest on which, by way of one file more at each turn.
    fn relation(&self) -> Relation
        ensures { AllSay result.rows (Way self.now.files.links (files_of self.now.files.image)) }
    {
        let mut relation = self.edges();
        'turns: for middle in 0..self.files.image.count() {
            relation = relation.through(middle);
        }
        relation
    }

    // A file that rests on itself, or 0.
    fn circle(&self) -> usize
        ensures { OnCycle (view_in self.now) result }
    {
        let relation = self.relation();
        self.numbers()
            .find(|file| relation.turns_back(*file))
            .unwrap_or(0)
    }
}

impl<'a> Checker<'a> {
    // A file that rests on itself, or 0 where there is none.
    pub fn circle(&self) -> Result<usize, CallRefusal>
        ensures { Circles (view_of self.now) result }
    {
        match &self.opened {
            Some(set) => Ok(set.circle()),
            None => Err(CallRefusal::NotOpened),
        }
    }
}
