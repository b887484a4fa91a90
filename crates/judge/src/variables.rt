// Question 23: whether the environment has each output's name with the right path.
ghost use Rattle.canonical.specs.Decode.{said};
ghost use Rattle.judge.specs.Stated.{VariableAsked, VariablesAsked};

use crate::right_outputs::RightOutputs;
use aterm::{Output, Placed, Span, Variable};
use derivation::{Field, Spot};

impl<'a> RightOutputs<'a> {
    // Where the environment has this output's name, unless it has it with the right path.
    fn wrong_variable(&self, variables: &[Placed<Variable>], name: Span) -> Option<Spot>
        ensures { VariableAsked self.now variables.now (said self.now.of.text.now name.start name.«end») result }
    {
        let out = self.of.said(name);
        match variables
            .iter()
            .enumerate()
            .find(|(_, row)| out.same(row.value.name))
        {
            Some((_, row)) if self.is_right(name, row.value.value) => None,
            Some((i, row)) => Some(Spot::of_row(Field::Environment, i + 1, row)),
            None => Some(Spot::of_list(Field::Environment)),
        }
    }

    // The same for each output row in turn.
    pub fn first_wrong_variable(
        &self,
        rows: &[Placed<Output>],
        variables: &[Placed<Variable>],
    ) -> Option<Spot>
        ensures { VariablesAsked self.now variables.now rows.now result }
    {
        rows.iter()
            .find_map(|row| self.wrong_variable(variables, row.value.name))
    }
}
