// A derivation's outputs without their paths, and its environment without the values of its outputs.
ghost use Rattle.std.specs.Prelude.{◌≡◌, ℕ, List, map};
ghost use Rattle.aterm.specs.Tables.{rows_of};
ghost use Rattle.canonical.specs.Files.{values, output_value, variable_value};
ghost use Rattle.hash_modulo.specs.Paths.{is_output, mask_output, mask_variable};
ghost use Rattle.right_paths.specs.Views.{said_by};

use crate::said::Said;
use aterm::{Output, Placed, Rows, Span, Variable};

// An output with an empty path.
fn mask_output(output: Output) -> Output
    ensures { (t : List ℕ) → output_value t result ≡ mask_output (output_value t output) }
{
    Output {
        path: Span::default(),
        ..output
    }
}

// The outputs with empty paths.
pub fn mask_outputs(outputs: Rows<Output, 16>) -> Rows<Output, 16>
    ensures { (t : List ℕ) → values (output_value t) (rows_of result) ≡ map mask_output (values (output_value t) (rows_of outputs)) }
{
    outputs.map(mask_output)
}

// Whether an output has this name.
fn is_output_name(outputs: &[Placed<Output>], name: Said<'_>) -> bool
    ensures { result ≡ is_output (values (output_value name.entry.text.now) outputs.now) (said_by name.entry) }
{
    outputs.iter().any(|output| name.same(output.value.name))
}

// A variable with an empty value where its name is an output's.
fn mask_variable(text: &[u8], outputs: &[Placed<Output>], variable: Variable) -> Variable
    ensures { variable_value text.now result ≡ mask_variable (values (output_value text.now) outputs.now) (variable_value text.now variable) }
{
    let name = Said::new(text, variable.name);
    if is_output_name(outputs, name) {
        return Variable {
            value: Span::default(),
            ..variable
        };
    }
    variable
}

// The environment with the value of each variable empty whose name is an output's.
pub fn mask_environment(
    text: &[u8],
    outputs: &[Placed<Output>],
    environment: Rows<Variable, 128>,
) -> Rows<Variable, 128>
    ensures { values (variable_value text.now) (rows_of result) ≡ map (mask_variable (values (output_value text.now) outputs.now)) (values (variable_value text.now) (rows_of environment)) }
{
    environment.map(|variable| mask_variable(text, outputs, variable))
}
