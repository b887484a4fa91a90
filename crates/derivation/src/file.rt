// The questions to a file that is read, in their order.
ghost use Rattle.derivation.specs.Judgement.{Put, JudgedFile};
ghost use Rattle.derivation.specs.Questions.{Answered, Yes, present, formed, different, settled, short};

use crate::ask::spot_of_no;
use crate::fault::FileFault;
use crate::field::Field;
use crate::formed::{FormedInput, FormedOutput, FormedSource};
use crate::keys::{Fresh, FreshInput};
use crate::question::Question;
use crate::rows::{EmptyUnlessFixed, HasNames, ShortName, is_fixed};
use crate::spot::Spot;
use aterm::Derivation;

// A file whose text was read; each question answers where its first no is.
// Each call names its field and that field's list: one method for each field would only add four functions that say the same.
#[derive(Clone, Copy)]
struct Asked<'a> {
    path: &'a [u8],
    text: &'a [u8],
    file: &'a Derivation,
}

impl<'a> Asked<'a> {
    // An output, and a name in each input row?
    fn present(&self) -> Option<Spot>
        ensures { Answered (λ _. present) self.now.text.now self.now.file.now result }
    {
        if self.file.outputs.as_slice().is_empty() {
            return Some(Spot::of_list(Field::Outputs));
        }
        spot_of_no(
            &HasNames,
            Field::Inputs,
            self.text,
            self.file.inputs.as_slice(),
        )
    }

    // Fields 1 to 3 without backslash, names and paths there well formed, input paths ending in `.drv`?
    fn formed(&self) -> Option<Spot>
        ensures { Answered (λ _. formed) self.now.text.now self.now.file.now result }
    {
        let text = self.text;
        let outputs = self.file.outputs.as_slice();
        let inputs = self.file.inputs.as_slice();
        let sources = self.file.sources.as_slice();
        spot_of_no(&FormedOutput, Field::Outputs, text, outputs)
            .or_else(|| spot_of_no(&FormedInput, Field::Inputs, text, inputs))
            .or_else(|| spot_of_no(&FormedSource, Field::Sources, text, sources))
    }

    // Keys different in each list, and the names in an input row?
    fn different(&self) -> Option<Spot>
        ensures { Answered (λ _. different) self.now.text.now self.now.file.now result }
    {
        let text = self.text;
        let outputs = self.file.outputs.as_slice();
        let inputs = self.file.inputs.as_slice();
        let sources = self.file.sources.as_slice();
        let variables = self.file.environment.as_slice();
        spot_of_no(&Fresh, Field::Outputs, text, outputs)
            .or_else(|| spot_of_no(&FreshInput, Field::Inputs, text, inputs))
            .or_else(|| spot_of_no(&Fresh, Field::Sources, text, sources))
            .or_else(|| spot_of_no(&Fresh, Field::Environment, text, variables))
    }

    // The file fixed, or both columns empty?
    fn fixed(&self) -> Option<Spot>
        ensures { Answered (λ x. settled x.0) self.now.text.now self.now.file.now result }
    {
        let outputs = self.file.outputs.as_slice();
        let fixed = is_fixed(self.text, outputs);
        spot_of_no(
            &EmptyUnlessFixed { fixed },
            Field::Outputs,
            self.text,
            outputs,
        )
    }

    // Each output's name at most 211 bytes?
    fn short(&self) -> Option<Spot>
        ensures { Answered (λ _. short self.now.path.now) self.now.text.now self.now.file.now result }
    {
        let stem = self.path.len().saturating_sub(48);
        spot_of_no(
            &ShortName { stem },
            Field::Outputs,
            self.text,
            self.file.outputs.as_slice(),
        )
    }

    // Refuses the file where the answer to a question is no.
    fn put(&self, question: Question, answer: Option<Spot>) -> Result<(), FileFault>
        requires { Answered (λ x. Yes question self.now.path.now x.0) self.now.text.now self.now.file.now answer }
        ensures { Put question self.now.path.now self.now.text.now self.now.file.now result }
    {
        match answer {
            None => Ok(()),
            Some(spot) => Err(FileFault::Row(question, spot)),
        }
    }
}

// Reads the file at `path`, and puts the questions to it in their order.
pub fn read_file(path: &[u8], text: &[u8]) -> Result<Derivation, FileFault>
    ensures { JudgedFile path.now text.now result }
{
    let file = aterm::read(text)?;
    let asked = Asked {
        path,
        text,
        file: &file,
    };
    asked.put(Question::Present, asked.present())?;
    asked.put(Question::Formed, asked.formed())?;
    asked.put(Question::Different, asked.different())?;
    asked.put(Question::Fixed, asked.fixed())?;
    asked.put(Question::Short, asked.short())?;
    Ok(file)
}
