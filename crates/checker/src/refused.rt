// Why a call is refused, and why a set is not opened.
ghost use Rattle.std.specs.Prelude.{◌≡◌};
ghost use Rattle.checker.specs.Opened.{open_number, open_slot};
ghost use Rattle.checker.specs.Refusals.{call_number};

use image::Refusal;

// Each is told by its number.
#[derive(Clone, Copy)]
pub enum CallRefusal {
    // No set is opened.
    NotOpened = 31,
    // A visit is out.
    VisitOut = 32,
    // No file is pending.
    NonePending = 33,
    // The visit's file is not taken here.
    NotTaken = 34,
    // There is no file of this number.
    NoFile = 35,
    // The file is not settled with a hash.
    NoHash = 36,
    // There is no output of this number.
    NoOutput = 37,
    // The file does not read.
    NotRead = 38,
    // The buffer is too short.
    Short = 39,
}

impl CallRefusal {
    // The number by which docs/CALLS.md tells the refusal.
    pub fn number(self) -> u8
        ensures { result ≡ call_number self }
    {
        self as u8
    }
}

#[derive(Clone, Copy)]
pub enum OpenRefusal {
    // A set is opened already.
    AlreadyOpen,
    // The image does not open.
    Image(Refusal),
}

impl OpenRefusal {
    // A match, as `Refusal` of image has it: the variants carry more than a number.
    pub fn number(self) -> u8
        ensures { result ≡ open_number self }
    {
        match self {
            OpenRefusal::AlreadyOpen => 1,
            OpenRefusal::Image(refusal) => refusal.number(),
        }
    }

    // 0 where no slot is at fault, as it is printed.
    pub fn slot(self) -> u16
        ensures { result ≡ open_slot self }
    {
        match self {
            OpenRefusal::AlreadyOpen => 0,
            OpenRefusal::Image(refusal) => refusal.slot(),
        }
    }
}
