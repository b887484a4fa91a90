ghost use Rattle.std.specs.Prelude.{◌≡◌};
ghost use Rattle.sink.specs.Write.{full_number};

// The refusal of a string that is longer than what the sink or the buffer still takes.
#[derive(Clone, Copy, PartialEq, Eq, Debug)]
pub struct Full;

impl Full {
    // The number of this refusal among those of docs/CALLS.md. A method, since a struct without fields has no discriminant.
    pub fn number(self) -> u8
        ensures { result ≡ full_number }
    {
        39
    }
}
