// Worked examples of the definitions up to verdicts, as one table.
#![tactic(auto)]

ghost use Rattle.samples_of_verdicts.specs.Samples.{Samples};

// Every example of the table holds.
pub fn samples_hold() -> bool
    ensures { Samples }
{
    true
}
