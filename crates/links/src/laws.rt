// The laws of the set of files of an image, each a clause of one contract.
ghost use Rattle.links.specs.Laws.{SetFinite, SetHas, SetOnly, OneNumber, PathsNamed, SamePairs};

// The set of an image that opens is finite, has its files and no others, one number each, with paths and texts within their limits; it depends on the pairs of path and text alone.
pub fn sets_stand() -> bool
    ensures finite { SetFinite }
    ensures has { SetHas }
    ensures only { SetOnly }
    ensures numbers { OneNumber }
    ensures named { PathsNamed }
    ensures pairs { SamePairs }
{
    true
}
