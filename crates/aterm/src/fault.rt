// Why a text does not read, and where.
#[derive(Clone, Copy, PartialEq, Debug)]
pub enum Cause {
    // The next byte is not allowed, or the text ends too early.
    Byte,
    // A row begins beyond its list's limit.
    Row,
}

// The first place that is wrong, and why.
#[derive(Clone, Copy, PartialEq, Debug)]
pub struct Fault {
    pub place: usize,
    pub cause: Cause,
}
