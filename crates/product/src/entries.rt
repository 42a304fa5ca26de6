// The entries of a table, and the sum of an entry with a tile's terms.
ghost use Rattle.std.specs.Prelude.{◌≡◌, ◌<◌, ◌≤◌, ⊤, length};
ghost use Rattle.laws.specs.Products.{added_between};
ghost use Rattle.laws.specs.Stores.{entry_of, stored_terms};

use kinds::Kind;
use placement::Placement;
use std::alloc::AllocError;
use std::ops::Range;

// The cell of an entry inside the table. That the row and the column are inside is said at each function that takes them: they
// are numbers of the caller's, and go no further.
pub(crate) fn cell_at<P: Placement>(placement: &P, row: u32, column: u32) -> usize
    requires row { row < (P.site placement.now).rows }
    requires column { column < (P.site placement.now).columns }
    ensures value { result ≡ (P.site placement.now).cell row column }
    ensures below { result < (P.site placement.now).span }
{
    placement.address(row, column).unwrap() as usize
}

// A table to read from: its placement, and the store that holds its entries and is no shorter than the span.
pub struct Held<'p, 's, P: Placement, E> {
    pub placement: &'p P,
    pub store: &'s [E],
    pub ghost long: { (P.site placement.now).span ≤ length store.now },
}

// By hand here and below, since a derive is refused over a ghost field for a type with a parameter.
impl<P: Placement, E> Clone for Held<'_, '_, P, E> {
    ghost is_clone = { λ held copy. copy ≡ held };

    ghost is_infallible = { λ _. ⊤ };

    fn clone(&self) -> Result<Self, AllocError> {
        Ok(*self)
    }
}

impl<P: Placement, E> Copy for Held<'_, '_, P, E> {}

impl<'p, 's, P: Placement, E> Held<'p, 's, P, E> {
    // A table over a store that is long enough.
    pub fn new(placement: &'p P, store: &'s [E]) -> Held<'p, 's, P, E>
        requires { (P.site placement.now).span ≤ length store.now }
        ensures placement { result.placement.now ≡ placement.now }
        ensures store { result.store.now ≡ store.now }
    {
        Held { placement, store }
    }
}

impl<P: Placement, E: Kind + Copy> Held<'_, '_, P, E> {
    // The entry at a row and a column inside.
    pub fn entry(self, row: u32, column: u32) -> E
        requires row { row < (P.site self.placement.now).rows }
        requires column { column < (P.site self.placement.now).columns }
        ensures { result ≡ entry_of (P.site self.entry.placement.now) E.nought self.entry.store.now row column }
    {
        self.store[cell_at(self.placement, row, column)]
    }
}

// What is there plus the next term, in this order.
fn plus_term<E: Kind>(sum: E, a: E, b: E) -> E
    ensures { result ≡ E.joined sum (E.chained a b) }
{
    sum.plus(a.times(b))
}

// An entry with the terms of a range of middle indices added, one at a time and in ascending order: always what is
// there plus the next term.
pub(crate) fn entry_sum<L: Placement, R: Placement, E: Kind + Copy>(
    left: Held<L, E>,
    right: Held<R, E>,
    row: u32,
    column: u32,
    middles: &Range<u32>,
    entry: E,
) -> E
    requires row { row < (L.site left.placement.now).rows }
    requires column { column < (R.site right.placement.now).columns }
    requires order { middles.now.start ≤ middles.now.end }
    requires left { middles.now.end ≤ (L.site left.placement.now).columns }
    requires right { middles.now.end ≤ (R.site right.placement.now).rows }
    ensures { result ≡ added_between E.joined entry (stored_terms E.Kind (L.site left.entry.placement.now) (R.site right.entry.placement.now) left.entry.store.now right.entry.store.now row column) middles.now.start middles.now.end }
{
    let mut sum = entry;
    for middle in middles.start..middles.end {
        sum = plus_term(sum, left.entry(row, middle), right.entry(middle, column));
    }
    sum
}
