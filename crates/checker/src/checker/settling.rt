// What settling a file looks up: the hashes of the files that its input rows name, and the first fault that stands against it.
ghost use Rattle.std.specs.Prelude.{◌≡◌, ◌<◌, ◌≤◌, length, Some, None, MatchResult, IfOk, IfErr, OnErr, slice_index_or};
ghost use Rattle.derivation.specs.Judgement.{Accepted};
ghost use Rattle.store_path.specs.Names.{StorePath};
ghost use Rattle.aterm.specs.declared.file.Input.{Input};
ghost use Rattle.aterm.specs.declared.rows.Placed.{Placed};
ghost use Rattle.canonical.specs.Files.{said_in};
ghost use Rattle.image.specs.Files.{bytes_of, files_of};
ghost use Rattle.links.specs.Linked.{FileLinked};
ghost use Rattle.links.specs.Sets.{Found};
ghost use Rattle.right_paths.specs.Views.{said_by};
ghost use Rattle.checker.specs.Rows.{row_at};
ghost use Rattle.checker.specs.Seen.{view_in};
ghost use Rattle.checker.specs.Settling.{hash_kept, HashFound, HashFor, HashesFor, FirstSpot, LinksAsked, kind_of, HashedFile, faulted, ReadDecided};

use super::OpenSet;
use crate::standing::{Standing, first_link};
use crate::state::{Hashes, Settlement, State};
use aterm::{Derivation, Input, Placed};
use derivation::{Field, Spot, read_file};
use hash_rows::Hash;
use image::File;
use judge::{judge_paths, sorted_file};
use links::Links;
use right_paths::{Counted, Said, SortedFile};
use sink::DigestSink;
use std::array;
use verdict::Fault;

// The hash of a file in this state, if it has one.
pub(super) fn hash_in(state: State) -> Option<Hash>
    ensures { result ≡ hash_kept state }
{
    match state {
        State::Settled(settlement) => settlement.hashes.map(|kept| kept.hash),
        State::Pending | State::Taken => None,
    }
}

impl<'a> OpenSet<'a> {
    // The number of the file at the path that a string means, if there is one.
    // Not `links::find`, which takes the path's bytes: of a sorted row it is known what its path means, and not that it stands so in the text.
    fn find_said(&self, path: Said<'_>) -> Option<usize>
        ensures { Found (bytes_of self.now.files.image) (files_of self.now.files.image) (said_by path.entry) result }
    {
        let before = self
            .files
            .image
            .files()
            .position(|file| path.says(file.path))?;
        Some(before + 1)
    }

    // The hash of the file at that path, if it is settled with one.
    fn hash_at(&self, path: Said<'_>) -> Option<Hash>
        ensures { HashFound (view_in self.now) (said_by path.entry) result }
    {
        let file = self.find_said(path)?;
        hash_in(self.states.get(file))
    }

    // The hash of the file that input row `i` names; past the last row, or where there is none, a default one, which nothing reads.
    fn hash_of_row(&self, text: &[u8], inputs: &[Placed<Input>], i: usize) -> Hash
        ensures { (r : Placed Input) → i < length inputs.now → HashFor (view_in self.now) (said_in text.now (slice_index_or inputs.now i r).value.path) result }
    {
        let Some(row) = inputs.get(i) else {
            return Hash::default();
        };
        let span = row.value.path;
        self.hash_at(Said { text, span }).unwrap_or_default()
    }

    // The hashes of the files that the input rows name, in the order of the rows.
    pub(super) fn input_hashes(&self, text: &[u8], inputs: &[Placed<Input>]) -> [Hash; 64]
        ensures { length inputs.now ≤ 64 → HashesFor (view_in self.now) text.now inputs.now result }
    {
        array::from_fn(
            |i|
                ensures { (r : Placed Input) → i < length inputs.entry.now → HashFor (view_in self.entry.now) (said_in text.entry.now (slice_index_or inputs.entry.now i r).value.path) result }
            { self.hash_of_row(text, inputs, i) },
        )
    }

    // Whether no input row's file stands so; if one does, where the first of them is.
    fn ask_rows(
        &self,
        links: &Links,
        inputs: &[Placed<Input>],
        unwanted: Standing,
    ) -> Result<(), Spot>
        requires { links.now.count ≡ length inputs.now }
        ensures { MatchResult result (λ _. FirstSpot (row_at self.now.states) links.now inputs.now unwanted None) (λ w. FirstSpot (row_at self.now.states) links.now inputs.now unwanted (Some w)) }
    {
        match first_link(links, &self.states, unwanted) {
            Some(i) => Err(Spot::of_row(Field::Inputs, i + 1, &inputs[i])),
            None => Ok(()),
        }
    }

    // Questions 18 to 20, and the fault of the first with the answer no.
    fn check_links(&self, links: &Links, inputs: &[Placed<Input>]) -> Result<(), Fault>
        requires { links.now.count ≡ length inputs.now }
        ensures { MatchResult result (λ _. LinksAsked (row_at self.now.states) links.now inputs.now None) (λ f. LinksAsked (row_at self.now.states) links.now inputs.now (Some f)) }
    {
        self.ask_rows(links, inputs, Standing::Absent)
            .map_err(Fault::Absent)?;
        self.ask_rows(links, inputs, Standing::Unowned)
            .map_err(Fault::Unowned)?;
        self.ask_rows(links, inputs, Standing::Unhashed)
            .map_err(Fault::Unhashed)?;
        self.ask_rows(links, inputs, Standing::Waiting)
            .map_err(Fault::Unhashed)
    }

    // What a file that reads is settled with by the hashes of its inputs, and how many bytes are digested for it.
    fn settle_hashed<S: DigestSink>(
        &self,
        path: &[u8],
        text: &[u8],
        file: &Derivation,
        sink: &mut S,
    ) -> Counted<Settlement>
        requires reads { Accepted path.now text.now file.now }
        requires stored { StorePath path.now }
        requires near { length path.now ≤ 255 }
        requires short { length text.now ≤ 262144 }
        ensures { HashedFile (kind_of S.Sink.step S.DigestSink.start S.DigestSink.capacity S.DigestSink.answered S.DigestSink.wide) (view_in self.now) path.now text.now (S.Sink.held sink.old).meaning result.value result.count (S.Sink.held sink.new).meaning }
    {
        let sorted = sorted_file(path, text, file);
        let rows = sorted.inputs.as_slice();
        let hashes = self.input_hashes(text, rows);
        let of = SortedFile {
            path,
            text,
            file: &sorted,
        };
        let worked = of.hash(&hashes[..rows.len()], sink);
        let verdict = judge_paths(file, of, &worked.own, &worked.outputs);
        let hashes = Some(Hashes {
            hash: worked.hash,
            masked: worked.masked,
        });
        Counted {
            value: Settlement { verdict, hashes },
            count: worked.count,
        }
    }

    // What a file is settled with if nothing stands against it before its hash is worked out, or the fault that does.
    fn decide<S: DigestSink>(
        &self,
        file: File<'_>,
        links: Option<Links>,
        sink: &mut S,
    ) -> Result<Counted<Settlement>, Fault>
        requires stored { StorePath file.path.now }
        requires near { length file.path.now ≤ 255 }
        requires short { length file.text.now ≤ 262144 }
        requires linked { FileLinked (bytes_of self.now.files.image) (files_of self.now.files.image) file.path.now file.text.now links }
        ensures decided { IfOk result (λ d. ReadDecided (kind_of S.Sink.step S.DigestSink.start S.DigestSink.capacity S.DigestSink.answered S.DigestSink.wide) (view_in self.now) file.entry.path.now file.entry.text.now (S.Sink.held sink.old).meaning d.value d.count (S.Sink.held sink.new).meaning) }
        ensures faulty { IfErr result (λ f. ReadDecided (kind_of S.Sink.step S.DigestSink.start S.DigestSink.capacity S.DigestSink.answered S.DigestSink.wide) (view_in self.now) file.entry.path.now file.entry.text.now (S.Sink.held sink.old).meaning (faulted f) 0 (S.Sink.held sink.old).meaning) }
        ensures same { OnErr result (sink.new ≡ sink.old) }
    {
        let read = read_file(file.path, file.text).map_err(Fault::Reading)?;
        // A file that reads has links.
        let links = links.unwrap();
        self.check_links(&links, read.inputs.as_slice())?;
        Ok(self.settle_hashed(file.path, file.text, &read, sink))
    }

    // What a file is settled with, by what is kept of it, and how many bytes are digested for it: none where its hash is not worked out.
    pub(super) fn settle_file<S: DigestSink>(
        &self,
        file: File<'_>,
        links: Option<Links>,
        sink: &mut S,
    ) -> Counted<Settlement>
        requires stored { StorePath file.path.now }
        requires near { length file.path.now ≤ 255 }
        requires short { length file.text.now ≤ 262144 }
        requires linked { FileLinked (bytes_of self.now.files.image) (files_of self.now.files.image) file.path.now file.text.now links }
        ensures { ReadDecided (kind_of S.Sink.step S.DigestSink.start S.DigestSink.capacity S.DigestSink.answered S.DigestSink.wide) (view_in self.now) file.entry.path.now file.entry.text.now (S.Sink.held sink.old).meaning result.value result.count (S.Sink.held sink.new).meaning }
    {
        match self.decide(file, links, sink) {
            Ok(decided) => decided,
            Err(fault) => Counted {
                value: Settlement {
                    verdict: Err(fault),
                    hashes: None,
                },
                count: 0,
            },
        }
    }
}
