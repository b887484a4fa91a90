// Rows sorted by their keys.
ghost use Rattle.std.specs.List.Sorted.{IsPermutation};
ghost use Rattle.canonical.specs.Order.{Level};
ghost use Rattle.canonical.specs.Kinds.{key};

use crate::row::Canon;

// Sorts rows by what their keys mean.
pub fn sort_rows<T: Canon>(text: &[u8], rows: &mut [T])
    ensures shuffled { IsPermutation rows.old rows.new }
    ensures level { Level (λ v. key T.kind (T.value text.now v)) rows.new }
{
    rows.sort_unstable_by(|a, b| a.order(text, b));
}
