// Numbers among a program's arguments.
ghost use Rattle.std.specs.Prelude.{◌≡◌, MatchOption, Ok, string_bytes};

use std::str::FromStr;

// The number that an argument gives, or the one that holds without it.
pub fn number<T: FromStr + Drop>(argument: Option<String>, without: T) -> Result<T, T::Err>
    ensures { MatchOption argument (result ≡ Ok without) (λ text. T.from_str_gives (string_bytes text) result) }
{
    match argument {
        Some(text) => text.as_str().parse(),
        None => Ok(without),
    }
}
