// A question to the rows of a list, and the first row of which the answer is no.
ghost use Rattle.std.specs.Prelude.{ℕ, ◌<◌, List, [], length, Decides, IfSome};
ghost use Rattle.aterm.specs.Reads.{Each};
ghost use Rattle.aterm.specs.Grammar.{Tree};
ghost use Rattle.derivation.specs.Asked.{Holding, Says, Finds, Scans, Throughout};

use crate::field::Field;
use crate::spot::Spot;
use aterm::Placed;

// A question that a row is asked, after the rows before it.
// A trait and not a closure: each of nine closures would have to carry in a clause what its rows hold and what its answer means. Here that stands once.
pub trait Ask<T> {
    // what a row holds of the text; given here, since the type of `yes` cannot name a member of `T`
    ghost rows: { Holding T };

    // the answer is yes of a row that comes after some others
    ghost yes: { Self → List (Tree rows.shape) → Tree rows.shape → Type 0 };

    fn says(&self, text: &[u8], earlier: &[Placed<T>], row: &T) -> bool
        ensures { Says rows.shape (rows.holds text.now) (yes self.now) earlier.now row.now result };
}

// The first row of which the answer is no, with how many rows come before it.
// Text and rows stay two parameters: a struct of them would be made at each call for one method.
fn first_no<'a, T, Q: Ask<T>>(
    ask: &Q,
    text: &[u8],
    rows: &'a [Placed<T>],
) -> Option<(usize, &'a Placed<T>)>
    ensures first { Finds Q.rows.shape (Q.rows.holds text.now) (Q.yes ask.now) rows.now result }
    ensures inside { IfSome result (λ p. p.0 < length rows.now) }
{
    rows.iter()
        .enumerate()
        .find(|(i, row)| !ask.says(text, &rows[..*i], &row.value))
}

// Where the first row of a field stands of which the answer is no.
pub fn spot_of_no<T, Q: Ask<T>>(
    ask: &Q,
    field: Field,
    text: &[u8],
    rows: &[Placed<T>],
) -> Option<Spot>
    ensures { Scans Q.rows.shape (Q.rows.holds text.now) (Q.yes ask.now) field rows.now result }
{
    let (i, row) = first_no(ask, text, rows)?;
    Some(Spot::of_row(field, i + 1, row))
}

// Whether the answer is yes of every row.
pub fn all_yes<T, Q: Ask<T>>(ask: &Q, text: &[u8], rows: &[Placed<T>]) -> bool
    ensures { (from : ℕ) (xs : List (Tree Q.rows.shape)) → Each Q.rows.shape (Q.rows.holds text.now) from rows.now xs → Decides result (Throughout (Q.yes ask.now) [] xs) }
{
    first_no(ask, text, rows).is_none()
}
