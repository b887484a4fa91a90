// The laws of the definition, each a clause of one contract.
ghost use Rattle.hash_modulo.specs.Laws.{OneHash, GreatestStands, HashableHasHash, CyclesHaveNone, InOwnTerms, Decided, SomeInputWithout, Local, OwnPaths, OutputPaths, StringsStand, WithinLimits, StringsShort, DigestedStand, OneRightPath, SomeRightPath, MeaningAlone};

// A file has one hash at most, has one exactly where it is hashable, has none on or above a cycle, and in a finite set is hashable exactly where all that it rests on is sound and acyclic.
// There it is decided, a file without a hash has an input row without one, and a hash depends on nothing that the file does not rest on.
// Of inputs with equal hash, the one with the greatest path stands in the text of a hash.
pub fn definition_stands() -> bool
    ensures one { OneHash }
    ensures greatest { GreatestStands }
    ensures has { HashableHasHash }
    ensures cycles { CyclesHaveNone }
    ensures founded { InOwnTerms }
    ensures decided { Decided }
    ensures without { SomeInputWithout }
    ensures local { Local }
{
    true
}

// Every meaning has right paths, one each.
pub fn right_paths_stand() -> bool
    ensures own { OwnPaths }
    ensures outputs { OutputPaths }
{
    true
}

// The strings digested for a file are there, one list of them, each short; right paths are there, one each; all depend on texts only through their meanings.
pub fn digested_strings_stand() -> bool
    ensures file { StringsStand }
    ensures limits { WithinLimits }
    ensures short { StringsShort }
    ensures digested { DigestedStand }
    ensures paths { OneRightPath }
    ensures some { SomeRightPath }
    ensures meaning { MeaningAlone }
{
    true
}
