// A derivation: its rows sorted, and its canonical text, field by field.
ghost use Rattle.std.specs.Prelude.{ℕ};
ghost use Rattle.aterm.specs.Grammar.{Tree};
ghost use Rattle.aterm.specs.Files.{derivation, in_derivation};
ghost use Rattle.sink.specs.Write.{Writes};
ghost use Rattle.canonical.specs.Kinds.{Means, Apart, Arranges};
ghost use Rattle.canonical.specs.Meanings.{an_output, an_input, a_variable, a_file, a_derivation, derive, Meaning, canonical};
ghost use Rattle.canonical.specs.Files.{output_value, input_value, variable_value, file_value, derivation_value};

use crate::row::{Canon, write_after, write_field};
use crate::string::compare;
use aterm::{Derivation, Input, Output, Variable};
use sink::{Full, Sink};
use std::cmp::Ordering;

impl Canon for Output {
    ghost kind = { an_output };

    ghost value = { output_value };

    fn order(&self, text: &[u8], other: &Output) -> Ordering {
        compare(text, self.name, other.name)
    }

    fn arranged(self, _text: &[u8]) -> Output {
        self
    }

    fn write_text<S: Sink>(&self, text: &[u8], sink: &mut S) -> Result<(), Full> {
        write_after(text, b'(', &self.name, sink)?;
        write_after(text, b',', &self.path, sink)?;
        write_after(text, b',', &self.algorithm, sink)?;
        write_after(text, b',', &self.hash, sink)?;
        sink.write(b")")
    }
}

impl Canon for Input {
    ghost kind = { an_input };

    ghost value = { input_value };

    fn order(&self, text: &[u8], other: &Input) -> Ordering {
        compare(text, self.path, other.path)
    }

    fn arranged(self, text: &[u8]) -> Input {
        Input {
            names: self.names.arranged(text),
            ..self
        }
    }

    fn write_text<S: Sink>(&self, text: &[u8], sink: &mut S) -> Result<(), Full> {
        write_after(text, b'(', &self.path, sink)?;
        write_after(text, b',', &self.names, sink)?;
        sink.write(b")")
    }
}

impl Canon for Variable {
    ghost kind = { a_variable };

    ghost value = { variable_value };

    fn order(&self, text: &[u8], other: &Variable) -> Ordering {
        compare(text, self.name, other.name)
    }

    fn arranged(self, _text: &[u8]) -> Variable {
        self
    }

    fn write_text<S: Sink>(&self, text: &[u8], sink: &mut S) -> Result<(), Full> {
        write_after(text, b'(', &self.name, sink)?;
        write_after(text, b',', &self.value, sink)?;
        sink.write(b")")
    }
}

// The derivation with the rows of each map and set sorted; the arguments keep their order.
pub fn sorted(text: &[u8], file: Derivation) -> Derivation
    ensures { Arranges a_derivation (derivation_value text.now file) (derivation_value text.now result) }
{
    let outputs = file.outputs.arranged(text);
    let inputs = file.inputs.arranged(text);
    let sources = file.sources.arranged(text);
    let environment = file.environment.arranged(text);
    Derivation {
        outputs,
        inputs,
        sources,
        environment,
        ..file
    }
}

// Writes a derivation's seven fields as they are, with any tables for its outputs, inputs and environment.
pub fn write_fields<O: Canon, I: Canon, E: Canon, S: Sink>(
    text: &[u8],
    outputs: &O,
    inputs: &I,
    file: &Derivation,
    environment: &E,
    sink: &mut S,
) -> Result<(), Full>
    ensures { Writes S.Sink.step (S.Sink.held sink.old) (derive (a_file O.Canon.kind I.Canon.kind E.Canon.kind) (file_value O.Canon.kind I.Canon.kind E.Canon.kind text.now (O.Canon.value text.now outputs.now) (I.Canon.value text.now inputs.now) file.now (E.Canon.value text.now environment.now))) result (S.Sink.held sink.new) }
{
    write_field(text, b"Derive(", outputs, sink)?;
    write_field(text, b",", inputs, sink)?;
    write_field(text, b",", &file.sources, sink)?;
    write_field(text, b",", &file.system, sink)?;
    write_field(text, b",", &file.builder, sink)?;
    write_field(text, b",", &file.arguments, sink)?;
    write_field(text, b",", environment, sink)?;
    sink.write(b")")
}

// Writes a derivation with its rows in the order in which it has them.
pub fn write_derivation<S: Sink>(text: &[u8], file: &Derivation, sink: &mut S) -> Result<(), Full>
    ensures { Writes S.step (S.held sink.old) (canonical (derivation_value text.now file.now)) result (S.held sink.new) }
{
    write_fields(
        text,
        &file.outputs,
        &file.inputs,
        file,
        &file.environment,
        sink,
    )
}

// Writes the canonical text of what a derivation read from the text means.
pub fn write_canonical<S: Sink>(text: &[u8], file: Derivation, sink: &mut S) -> Result<(), Full>
    ensures { (at : ℕ) (t : Tree derivation) (m : Meaning) → in_derivation text.now at file t → Apart a_derivation t → Means a_derivation t m → Writes S.step (S.held sink.old) (canonical m) result (S.held sink.new) }
{
    write_derivation(text, &sorted(text, file), sink)
}
