// What a run is asked, and what it answers.
use crate::refused::{CallRefusal, OpenRefusal};
use verdict::Fault;

// The part of a buffer that a call is lent: where it begins, and how long it is at most.
#[derive(Clone, Copy)]
pub struct Window {
    pub from: usize,
    pub size: usize,
}

// The file to which a visit is offered.
#[derive(Clone, Copy)]
pub enum Offer {
    // The one that was taken last.
    LastTaken,
    // The one of this number, taken or not.
    File(usize),
}

// Numbers of files and of outputs come before windows.
#[derive(Clone, Copy)]
pub enum Call {
    Take,
    Settle(Offer),
    PutBack(Offer),
    Verdict(usize),
    Path(usize, usize, Window),
    Rewrite(usize, Window),
    Circle,
    Line(usize, Window),
    Tail(Window),
}

#[derive(Clone, Copy)]
pub enum Answer {
    // The number of the file.
    Taken(Result<usize, CallRefusal>),
    // How many bytes were digested.
    Settled(Result<u64, CallRefusal>),
    PutBack(Result<(), CallRefusal>),
    // None where the file is not settled.
    Verdict(Result<Option<Result<(), Fault>>, CallRefusal>),
    // How many bytes were written to the window: of path, rewrite, line and tail.
    Written(Result<usize, CallRefusal>),
    // The number of a file on a cycle, or 0.
    Circle(Result<usize, CallRefusal>),
}

// What became of a run: whether its image opened, and how many calls were made.
#[derive(Clone, Copy)]
pub struct Ran {
    pub opened: Result<(), OpenRefusal>,
    pub count: usize,
}
