// The laws of calls, each a clause of one contract.
ghost use Rattle.checker.specs.Opened.{OneOpening, SomeOpening};
ghost use Rattle.checker.specs.Theorem.{CanonicalAgain, ClientTheorem, CountIsRise, EveryCallAnswers, EveryListRuns, FreshSound, OneCallAnswer, RefusedStays, RewrittenAlike, RewrittenAgain, RunTheorem, RunsSplit, SoundHashesHold, SoundSteps, TotalsRise, TotalsSmall, WrittenStays};

// For every kind of digest sink, every image that opens and every list of calls, every answer that is no refusal is the definition's, settled files have its verdicts and hashes, each file is settled once, the counts add up, and which file is pending, taken or settled follows from the calls: whether one sink and one buffer go from call to call, or each call is lent its own.
// A newly opened checker is sound, and every call leaves a sound view sound; a refused call leaves the files, the sink and the buffer as they were; a front of a run is a run.
// Of the buffer a call changes the bytes of the text that it writes at the start of its part, and no other.
pub fn runs_stand() -> bool
    ensures client { ClientTheorem }
    ensures right { RunTheorem }
    ensures fresh { FreshSound }
    ensures sound { SoundSteps }
    ensures refused { RefusedStays }
    ensures written { WrittenStays }
    ensures split { RunsSplit }
{
    true
}

// Whatever was opened before and whatever the image, open has an answer, and one only.
pub fn opening_stands() -> bool
    ensures some { SomeOpening }
    ensures one { OneOpening }
{
    true
}

// Each settle's count is the rise of the sink's total, modulo 2^64, and a total stays below that.
// Along every run the total rises by the settles' counts and the lengths of the strings digested for paths, modulo 2^64.
pub fn counts_are_rises() -> bool
    ensures rise { CountIsRise }
    ensures small { TotalsSmall }
    ensures run { TotalsRise }
{
    true
}

// Whatever the checker's image and states, the digest sink and the buffer, every call has an answer:
// path where the files settled with hashes can have them, as in every sound view.
// So every list of calls has a run.
pub fn every_call_answers() -> bool
    ensures every { EveryCallAnswers }
    ensures sound { SoundHashesHold }
    ensures lists { EveryListRuns }
{
    true
}

// Whatever the checker's image and states, the digest sink and the buffer, a call has one answer only, but for the row told with 20 and the file on a cycle.
pub fn one_answer_a_call() -> bool
    ensures { OneCallAnswer }
{
    true
}

// Two files that read, of one image or of two, are rewritten alike exactly where their meanings are equal, and what a rewrite left, at its path in an image that opens, is rewritten to itself, of its length.
pub fn rewriting_stands() -> bool
    ensures alike { RewrittenAlike }
    ensures again { RewrittenAgain }
    ensures canonical { CanonicalAgain }
{
    true
}
