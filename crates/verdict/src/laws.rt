// The laws of verdicts, each a clause of one contract.
ghost use Rattle.verdict.specs.Laws.{EveryVerdict, OneVerdict, AcceptedExactly};

// Every file of a finite set has a verdict, one only but for the row of 20, and is accepted exactly where three things hold.
pub fn verdicts_stand() -> bool
    ensures every { EveryVerdict }
    ensures one { OneVerdict }
    ensures accepted { AcceptedExactly }
{
    true
}
