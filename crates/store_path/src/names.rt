// Names and store paths.
ghost use Rattle.std.specs.Prelude.{Decides, MatchOption};
ghost use Rattle.std.specs.List.{ContainsAt as Has, AllByRecursion};
ghost use Rattle.store_path.specs.Names.{Name, Based, Joined, StorePath, Apart, Drv};

const NAME_BYTES: &[u8] = b"0123456789abcdefghijklmnopqrstuvwxyzABCDEFGHIJKLMNOPQRSTUVWXYZ+-._?=";

pub const DIGITS: &[u8; 32] = b"0123456789abcdfghijklmnpqrsvwxyz";

// A store path's digits and its name, lent by the path.
#[derive(Clone, Copy)]
pub struct Parts<'a> {
    pub digits: &'a [u8],
    pub name: &'a [u8],
}

// Whether each byte of `s` is one of `alphabet`.
pub fn all_in(s: &[u8], alphabet: &[u8]) -> bool
    ensures { Decides result (AllByRecursion (Has alphabet.now) s.now) }
{
    s.iter().all(|c| alphabet.contains(c))
}

pub fn is_name(s: &[u8]) -> bool
    ensures { Decides result (Name s.now) }
{
    s.first().is_some_and(|c| *c != b'.') && s.len() <= 211 && all_in(s, NAME_BYTES)
}

// What follows `/nix/store/` in a store path, as its digits and its name.
fn base_parts<'a>(s: &'a [u8]) -> Option<Parts<'a>>
    ensures { MatchOption result (Based s.now → ⊥) (λ p. Joined s.now p.digits.now p.name.now) }
{
    let (digits, tail) = s.split_at_checked(32)?;
    let name = tail.strip_prefix(b"-")?;
    // An `if`, no longer than `then_some`: the proof goes by its two arms.
    if all_in(digits, DIGITS) && is_name(name) {
        Some(Parts { digits, name })
    } else {
        None
    }
}

// The digits and the name of a store path; None of anything else.
// By a slice pattern, the fixed first bytes and the rest: this form was asked for (docs/DECISIONS.md, 'Forms that were asked for').
pub fn take_apart<'a>(path: &'a [u8]) -> Option<Parts<'a>>
    ensures { MatchOption result (StorePath path.now → ⊥) (λ p. Apart path.now p.digits.now p.name.now) }
{
    match path {
        [
            b'/',
            b'n',
            b'i',
            b'x',
            b'/',
            b's',
            b't',
            b'o',
            b'r',
            b'e',
            b'/',
            rest @ ..,
        ] => base_parts(rest),
        _ => None,
    }
}

pub fn is_store_path(s: &[u8]) -> bool
    ensures { Decides result (StorePath s.now) }
{
    take_apart(s).is_some()
}

pub fn ends_with_drv(s: &[u8]) -> bool
    ensures { Decides result (Drv s.now) }
{
    s.ends_with(b".drv")
}
