// The texts of a derivation that are digested. Its rows are sorted.
ghost use Rattle.aterm.specs.Tables.{rows_of};
ghost use Rattle.canonical.specs.Files.{values};
ghost use Rattle.canonical.specs.Meanings.{canonical};
ghost use Rattle.hash_modulo.specs.Hashes.{with_inputs};
ghost use Rattle.hash_modulo.specs.Paths.{masked};
ghost use Rattle.right_paths.specs.Inputs.{hash_input_value};
ghost use Rattle.right_paths.specs.Views.{file_by};

use crate::file::SortedFile;
use crate::hash_input::HashInput;
use crate::masked::{mask_environment, mask_outputs};
use aterm::Rows;
use canonical::{write_derivation, write_fields};
use sink::{Full, Sink, ToSink};

// The canonical text.
#[derive(Clone, Copy)]
pub struct CanonicalText<'a> {
    pub of: SortedFile<'a>,
}

impl<'a> ToSink for CanonicalText<'a> {
    ghost bytes = { λ s. canonical (file_by s.of) };

    fn write_to<S: Sink>(&self, sink: &mut S) -> Result<(), Full> {
        write_derivation(self.of.text, self.of.file, sink)
    }
}

// The text with hashes in place of the paths of its inputs, whole or masked: with its own output paths left out too.
#[derive(Clone, Copy)]
pub struct HashText<'a, const MASKED: bool> {
    pub of: SortedFile<'a>,
    pub inputs: &'a Rows<HashInput, 64>,
}

pub type WholeText<'a> = HashText<'a, false>;

pub type MaskedText<'a> = HashText<'a, true>;

impl<'a> ToSink for HashText<'a, false> {
    ghost bytes = { λ s. canonical (with_inputs (file_by s.of) (values (hash_input_value s.of.text.now) (rows_of s.inputs.now))) };

    fn write_to<S: Sink>(&self, sink: &mut S) -> Result<(), Full> {
        let text = self.of.text;
        let file = self.of.file;
        write_fields(
            text,
            &file.outputs,
            self.inputs,
            file,
            &file.environment,
            sink,
        )
    }
}

impl<'a> ToSink for HashText<'a, true> {
    ghost bytes = { λ s. canonical (with_inputs (masked (file_by s.of)) (values (hash_input_value s.of.text.now) (rows_of s.inputs.now))) };

    fn write_to<S: Sink>(&self, sink: &mut S) -> Result<(), Full> {
        let text = self.of.text;
        let file = self.of.file;
        let outputs = mask_outputs(file.outputs);
        let environment = mask_environment(text, file.outputs.as_slice(), file.environment);
        write_fields(text, &outputs, self.inputs, file, &environment, sink)
    }
}
