// A derivation: its rows and fields, each string by its span in the text.
ghost use Rattle.aterm.specs.Files.{output, input, variable, derivation, in_output, in_input, in_variable, in_derivation, Judged};

use crate::fault::{Cause, Fault};
use crate::part::{Part, Shaped, Span};
use crate::reader::Reader;
use crate::rows::Rows;

// A row of field 1: (name,path,algorithm,hash).
#[derive(Clone, Copy, Default)]
pub struct Output {
    pub name: Span,
    pub path: Span,
    pub algorithm: Span,
    pub hash: Span,
}

impl Shaped for Output {
    ghost shape = { output };

    ghost holds = { in_output };
}

impl Part for Output {
    fn open() -> u8 {
        b'('
    }

    fn rest(reader: &mut Reader<'_>) -> Result<Output, Fault> {
        let name = reader.field::<Span>(b',')?;
        let path = reader.field::<Span>(b',')?;
        let algorithm = reader.field::<Span>(b',')?;
        let hash = reader.field::<Span>(b')')?;
        Ok(Output {
            name,
            path,
            algorithm,
            hash,
        })
    }
}

// A row of field 2: the path of a derivation, and the names of the outputs that are used.
#[derive(Clone, Copy, Default)]
pub struct Input {
    pub path: Span,
    pub names: Rows<Span, 16>,
}

impl Shaped for Input {
    ghost shape = { input };

    ghost holds = { in_input };
}

impl Part for Input {
    fn open() -> u8 {
        b'('
    }

    fn rest(reader: &mut Reader<'_>) -> Result<Input, Fault> {
        let path = reader.field::<Span>(b',')?;
        let names = reader.field::<Rows<Span, 16>>(b')')?;
        Ok(Input { path, names })
    }
}

// A row of field 7: (name,value).
#[derive(Clone, Copy, Default)]
pub struct Variable {
    pub name: Span,
    pub value: Span,
}

impl Shaped for Variable {
    ghost shape = { variable };

    ghost holds = { in_variable };
}

impl Part for Variable {
    fn open() -> u8 {
        b'('
    }

    fn rest(reader: &mut Reader<'_>) -> Result<Variable, Fault> {
        let name = reader.field::<Span>(b',')?;
        let value = reader.field::<Span>(b')')?;
        Ok(Variable { name, value })
    }
}

// The seven fields.
#[derive(Clone, Copy, Default)]
pub struct Derivation {
    pub outputs: Rows<Output, 16>,
    pub inputs: Rows<Input, 64>,
    pub sources: Rows<Span, 64>,
    pub system: Span,
    pub builder: Span,
    pub arguments: Rows<Span, 64>,
    pub environment: Rows<Variable, 128>,
}

impl Shaped for Derivation {
    ghost shape = { derivation };

    ghost holds = { in_derivation };
}

impl Part for Derivation {
    fn open() -> u8 {
        b'('
    }

    fn rest(reader: &mut Reader<'_>) -> Result<Derivation, Fault> {
        let outputs = reader.field::<Rows<Output, 16>>(b',')?;
        let inputs = reader.field::<Rows<Input, 64>>(b',')?;
        let sources = reader.field::<Rows<Span, 64>>(b',')?;
        let system = reader.field::<Span>(b',')?;
        let builder = reader.field::<Span>(b',')?;
        let arguments = reader.field::<Rows<Span, 64>>(b',')?;
        let environment = reader.field::<Rows<Variable, 128>>(b')')?;
        Ok(Derivation {
            outputs,
            inputs,
            sources,
            system,
            builder,
            arguments,
            environment,
        })
    }
}

// Reads a whole text, or answers the first place where it may not go on so.
pub fn read(text: &[u8]) -> Result<Derivation, Fault>
    ensures { Judged text.now result }
{
    let mut reader = Reader::after(text, b"Derive(")?;
    let file = Derivation::rest(&mut reader)?;
    if reader.at < text.len() {
        return Err(Fault {
            place: reader.at,
            cause: Cause::Byte,
        });
    }
    Ok(file)
}
