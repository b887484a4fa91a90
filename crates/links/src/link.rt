// What is kept of a file, so that it need not be read again to see which files it names.
ghost use Rattle.std.specs.Prelude.{◌≡◌, ◌≤◌, length};

// The number of the file that an input row names, and whether that file, if it reads, owns the outputs named: a fact about that file, and no sign of whether it is there.
#[derive(Clone, Copy)]
pub struct Link {
    pub file: u16,
    pub owned: bool,
}

// Of a file that reads: for each of its input rows, in text order, a link where the row names a file. They are the first `count` of `rows`.
// A table with a length: callers have it from the public `LinkTable::get` by value, as a `Copy` type with these fields, and an `ArrayVec` is not `Copy`.
// The length stands as a fact too: checker's proofs take it of any `Links`, without what the code knows of an array.
#[derive(Clone, Copy)]
pub struct Links {
    pub rows: [Option<Link>; 64],
    pub count: usize,
    ghost few: { count ≤ 64 },
    ghost wide: { length rows ≡ 64 },
}
