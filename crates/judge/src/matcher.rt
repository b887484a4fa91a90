// A string of the text held against what is written.
ghost use Rattle.std.specs.Prelude.{◌≡◌, [], ◌∷◌, Some, Decides};
ghost use Rattle.right_paths.specs.Views.{said_by};
ghost use Rattle.judge.specs.Matching.{matching, expected};

use aterm::Meant;
use canonical::{Watch, Watcher};
use right_paths::Said;
use sink::ToSink;

// What is still to come of the string; None once another byte was written.
#[derive(Clone, Copy)]
struct Rest<'a> {
    to_come: Option<Meant<'a>>,
}

// What is still to come after one more byte.
fn pass(mut here: Meant<'_>, b: u8) -> Option<Meant<'_>>
    ensures { expected result ≡ matching (expected (Some here.entry)) b }
{
    (here.next()? == b).then_some(here)
}

impl<'a> Watch for Rest<'a> {
    ghost step = { matching };

    ghost state = { λ s. expected s.to_come };

    fn after(self, b: u8) -> Rest<'a> {
        let to_come = self.to_come.and_then(|here| pass(here, b));
        Rest { to_come }
    }
}

// Whether all of the string was written, and nothing else.
fn is_through(rest: Option<Meant<'_>>) -> bool
    ensures { Decides result (expected rest.entry ≡ 0 ∷ []) }
{
    rest.is_some_and(|mut here| here.next().is_none())
}

// Whether a string of the text means what `what` writes.
pub fn means<T: ToSink>(string: Said<'_>, what: &T) -> bool
    ensures { Decides result (said_by string.entry ≡ T.ToSink.bytes what.now) }
{
    let to_come = Some(string.span.meant(string.text));
    let mut matcher = Watcher::new(Rest { to_come });
    // A watcher refuses only past 2^128 bytes, and nothing that stands in a text is so long.
    what.write_to(&mut matcher).is_ok() && is_through(matcher.watching.to_come)
}
