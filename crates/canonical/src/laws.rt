// The laws of meanings and canonical texts, each the contract of a function.
ghost use Rattle.canonical.specs.Laws.{Exists, Unique, Keeps, Injective, ReadsBack, Agree, Bounded};
ghost use Rattle.canonical.specs.Canonical.{HasOne, OnlyOne, WrittenBack, Needless};

// A tree whose keys differ in each map and set has a meaning.
pub fn meaning_exists() -> bool
    ensures { Exists }
{
    true
}

// A tree has one meaning at most, and that of a tree within its limits is lawful.
pub fn meaning_is_unique() -> bool
    ensures unique { Unique }
    ensures keeps { Keeps }
{
    true
}

// The canonical text of a lawful meaning reads as one tree, which means the same again.
pub fn canonical_reads_back() -> bool
    ensures { ReadsBack }
{
    true
}

// No two meanings have one canonical text.
pub fn canonical_is_injective() -> bool
    ensures injective { Injective }
    ensures agree { Agree }
{
    true
}

// A canonical text is at most twice as long as any text of the same meaning.
pub fn canonical_is_short() -> bool
    ensures { Bounded }
{
    true
}

// Each lawful meaning has exactly one canonical text, and what is canonical already is written back byte for byte.
pub fn canonical_is_the_only_one() -> bool
    ensures has { HasOne }
    ensures only { OnlyOne }
    ensures back { WrittenBack }
{
    true
}

// `"\a"` means the one byte `a`, and its canonical text is `"a"`.
pub fn needless_escape_is_dropped() -> bool
    ensures { Needless }
{
    true
}
