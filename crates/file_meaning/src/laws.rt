// The laws of files that read and their canonical texts, each the contract of a function.
ghost use Rattle.file_meaning.specs.Laws.{EveryFile, NotBoth, OneFault, OneMeaning, EachHasOneText, WrittenBack, ReadsAgain, Alike, Short};

// Every file reads or has a fault, not both, and one fault only.
pub fn files_are_judged() -> bool
    ensures every { EveryFile }
    ensures apart { NotBoth }
    ensures one { OneFault }
{
    true
}

// A file that reads has one meaning only.
pub fn files_have_one_meaning() -> bool
    ensures { OneMeaning }
{
    true
}

// A meaning that some file reads to has one canonical text, and what is canonical already is that text byte for byte.
pub fn meanings_have_one_text() -> bool
    ensures one { EachHasOneText }
    ensures back { WrittenBack }
{
    true
}

// The canonical text of what a file reads to, at the same path, reads again to the same meaning.
pub fn canonical_text_reads_again() -> bool
    ensures { ReadsAgain }
{
    true
}

// Two files that read have the same canonical text exactly when their meanings are equal.
pub fn files_are_alike_by_meaning() -> bool
    ensures { Alike }
{
    true
}

// The canonical text is at most twice as long as the text.
pub fn canonical_text_is_short() -> bool
    ensures { Short }
{
    true
}
