// Tables of rows, each with its place in the text.
ghost use Rattle.std.specs.Prelude.{◌≡◌, ◌+◌, ◌<◌, ◌≤◌, [], ◌∷◌, ◌++◌};
ghost use Rattle.std.specs.List.{AllZip};

use std::alloc::AllocError;

// A row, and the place of its first byte in the text.
#[derive(Clone, Copy)]
pub struct Placed<T> {
    pub place: usize,
    pub value: T,
}

// At most N rows: the first `len` of `items`. The items after those are of no meaning.
// A table of its own: the library crates use no heap, and an `ArrayVec` is not `Copy`, as a derivation is.
// No `impl Model`: a `Copy` type needs its `inverse`, and the list of the rows forgets the items after them.
pub struct Rows<T, const N: usize> {
    pub items: [Placed<T>; N],
    pub len: usize,
    ghost fits: { len ≤ N },
}

// By hand: `Clone` is not derived over a ghost field where the struct has a type parameter.
impl<T: Copy, const N: usize> Clone for Rows<T, N> {
    ghost is_clone = { λ x y. y ≡ x };

    ghost is_infallible = { λ _. Unit {0} };

    fn clone(&self) -> Result<Rows<T, N>, AllocError> {
        Ok(*self)
    }
}

impl<T: Copy, const N: usize> Copy for Rows<T, N> {}

// By hand: `Default` is not derived over a ghost field.
impl<T: Copy + Default, const N: usize> Default for Rows<T, N> {
    ghost is_default = { λ r. r.len ≡ 0 };

    fn default() -> Rows<T, N> {
        Rows::empty(T::default())
    }
}

impl<T: Copy, const N: usize> Rows<T, N> {
    ghost use Rattle.aterm.specs.Tables.{rows_of};

    // No rows; `blank` fills the room.
    pub fn empty(blank: T) -> Rows<T, N>
        ensures { result.len ≡ 0 }
    {
        Rows {
            items: [Placed {
                place: 0,
                value: blank,
            }; N],
            len: 0,
        }
    }

    pub fn len(&self) -> usize
        ensures { result ≡ self.now.len }
    {
        self.len
    }

    // The rows that are there.
    pub fn as_slice(&self) -> &[Placed<T>]
        ensures { result.now ≡ rows_of self.now }
    {
        &self.items[..self.len]
    }

    // Changes each row, which keeps its place. A loop: the array's own `map` asks that an iterator of its items fits in memory, which is not
    // known of every T and N, and it would change the items that are of no meaning. By places, in place: to fill a second table moves all of it once more.
    pub fn map<F: Fn(T) -> T>(self, change: F) -> Rows<T, N>
        requires { F.IsAlwaysCallable change }
        ensures len { result.len ≡ self.len }
        ensures rows { AllZip (λ v w. (w.place ≡ v.place) × F.post change v.value w.value) (rows_of self) (rows_of result) }
    {
        let Rows { mut items, len } = self;
        for i in 0..len {
            let row = items[i];
            let value = change(row.value);
            items[i] = Placed {
                place: row.place,
                value,
            };
        }
        Rows { items, len }
    }

    // Adds a row; there is room for it.
    pub(crate) fn push(&mut self, x: Placed<T>)
        requires { self.old.len < N }
        ensures len { self.new.len ≡ self.old.len + 1 }
        ensures items { rows_of self.new ≡ rows_of self.old ++ x ∷ [] }
    {
        self.items[self.len] = x;
        self.len += 1;
    }
}
