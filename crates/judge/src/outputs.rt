// Question 22: whether each output row states the right path.
ghost use Rattle.std.specs.Prelude.{Decides};
ghost use Rattle.aterm.specs.Files.{output, in_output};
ghost use Rattle.aterm.specs.Grammar.{meaning};
ghost use Rattle.canonical.specs.Decode.{said};
ghost use Rattle.derivation.specs.Asked.{Scans};
ghost use Rattle.derivation.specs.declared.field.Field.TheVariants.{Outputs};
ghost use Rattle.judge.specs.Stated.{Told};

use crate::matcher::means;
use crate::right_outputs::RightOutputs;
use crate::right_path::RightPath;
use aterm::{Output, Placed, Span};
use derivation::{Field, Spot};
use right_paths::{OutputName, SortedFile};

impl<'a> RightOutputs<'a> {
    // Whether `stated` means the right path of an output with this name.
    pub fn is_right(&self, name: Span, stated: Span) -> bool
        ensures { Decides result (Told self.now (said self.now.of.text.now name.start name.«end») (said self.now.of.text.now stated.start stated.«end»)) }
    {
        let SortedFile { path, file, .. } = self.of;
        let stated = self.of.said(stated);
        let out = self.of.said(name);
        let outputs = file.outputs.as_slice();
        outputs.iter().zip(self.digits).any(|(output, digits)| {
            let right = RightPath {
                digits: *digits,
                name: OutputName { path, out },
            };
            out.same(output.value.name) && means(stated, &right)
        })
    }

    // Where the first output row stands that states another path. An `Option`, as `find` gives it and as the questions of derivation answer.
    // Not derivation's search, though the clause is the same: it and its trait of questions are inside derivation, and would be public for this one call.
    pub fn first_wrong_output(&self, rows: &[Placed<Output>]) -> Option<Spot>
        ensures { Scans output (in_output self.now.of.text.now) (λ ys x. Told self.now (meaning x.0) (meaning x.1.0)) Outputs rows.now result }
    {
        let (i, row) = rows
            .iter()
            .enumerate()
            .find(|(_, row)| !self.is_right(row.value.name, row.value.path))?;
        Some(Spot::of_row(Field::Outputs, i + 1, row))
    }
}
