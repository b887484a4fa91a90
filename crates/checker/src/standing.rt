// How the files that a file's input rows name stand.
ghost use Rattle.std.specs.Prelude.{◌≡◌, Decides};
ghost use Rattle.checker.specs.Rows.{row_at};
ghost use Rattle.checker.specs.Standings.{standing_in, FirstLink, SomeLink, LinksFaulty, LinksReady};

use crate::state::State;
use crate::states::States;
use links::{Link, Links};

#[derive(Clone, Copy, PartialEq)]
pub enum Standing {
    // It is not in the set.
    Absent,
    // It reads, and does not own an output that the row names.
    Unowned,
    // It is settled without a hash.
    Unhashed,
    // It is not settled.
    Waiting,
    // It is settled with a hash.
    Hashed,
}

// How the file of one row stands.
fn standing_of(link: Option<Link>, states: &States) -> Standing
    ensures { result ≡ standing_in (row_at states.now) link }
{
    match link {
        None => Standing::Absent,
        Some(link) if !link.owned => Standing::Unowned,
        Some(link) => match states.get(usize::from(link.file)) {
            State::Settled(settlement) if settlement.hashes.is_some() => Standing::Hashed,
            State::Settled(_) => Standing::Unhashed,
            State::Pending | State::Taken => Standing::Waiting,
        },
    }
}

// The first row, counted from 0, whose file stands so. Asked for by one of the five and not by a closure, which could only compare with it.
pub fn first_link(links: &Links, states: &States, wanted: Standing) -> Option<usize>
    ensures { FirstLink (row_at states.now) links.now wanted result }
{
    links.rows[..links.count]
        .iter()
        .position(|link| standing_of(*link, states) == wanted)
}

// Whether the file of some row stands so.
fn has_link(links: &Links, states: &States, wanted: Standing) -> bool
    ensures { Decides result (SomeLink (row_at states.now) links.now wanted) }
{
    first_link(links, states, wanted).is_some()
}

// Whether some row's file is absent, does not own an output that is wanted, or is settled without a hash.
fn are_faulty(links: &Links, states: &States) -> bool
    ensures { Decides result (LinksFaulty (row_at states.now) links.now) }
{
    has_link(links, states, Standing::Absent)
        || has_link(links, states, Standing::Unowned)
        || has_link(links, states, Standing::Unhashed)
}

// Whether a file that reads, with these links, is ready.
pub fn are_ready(links: &Links, states: &States) -> bool
    ensures { Decides result (LinksReady (row_at states.now) links.now) }
{
    are_faulty(links, states) || !has_link(links, states, Standing::Waiting)
}
