// What holds of every path and every tree.
ghost use Rattle.derivation.specs.Total.{EveryTree};

// Each tree has its judgement: every question answered yes, or the first question with a no, and where.
pub fn every_tree_is_judged() -> bool
    ensures { EveryTree }
{
    true
}
