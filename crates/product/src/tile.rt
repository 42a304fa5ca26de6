// The product of one tile.
ghost use Rattle.std.specs.Prelude.{◌≡◌, ◌*◌, ◌^◌, ◌≤◌};
ghost use Rattle.laws.specs.Products.{first_of, past_of};
ghost use Rattle.laws.specs.Stores.{tile_stored};
ghost use Rattle.product.specs.Tiles.{Tables, Begins};

use super::entries::{Held, cell_at, entry_sum};
use kinds::Kind;
use placement::Placement;
use std::ops::Range;
use walk::{Sizes, Triple};

// The indices of a side that a tile covers, cut at the side.
fn covered(side: u32, order: u32, tile: u32) -> Range<u32>
    requires order { order ≤ 12 }
    requires tile { tile * 2 ^ order ≤ 4096 }
    ensures start { result.start ≡ first_of order tile }
    ensures end { result.end ≡ past_of side order tile }
{
    let first = tile << order;
    first..side.min(first + (1 << order))
}

// Makes the product of one tile: the terms of the middle indices that the triple covers are added to each entry of
// the result that it covers, and every other cell is as it was. The sizes are those of the product, and may be
// smaller than the tables.
pub fn tile_product<L: Placement, R: Placement, S: Placement, E: Kind + Copy>(
    left: Held<L, E>,
    right: Held<R, E>,
    target: &S,
    results: &mut [E],
    sizes: Sizes,
    triple: Triple,
)
    requires tables { Tables sizes (L.site left.placement.now) (R.site right.placement.now) (S.site target.now) results.old }
    requires triple { Begins sizes triple }
    ensures { results.new ≡ tile_stored E.Kind sizes (L.site left.entry.placement.now) (R.site right.entry.placement.now) (S.site target.now) left.entry.store.now right.entry.store.now results.old triple }
{
    let rows = covered(sizes.rows, sizes.order, triple.row);
    let columns = covered(sizes.columns, sizes.order, triple.column);
    let middle = covered(sizes.middle, sizes.order, triple.middle);
    for row in rows {
        // A loop uses its range up, and the columns are gone over once for each row.
        for column in columns.start..columns.end {
            let cell = cell_at(target, row, column);
            results[cell] = entry_sum(left, right, row, column, &middle, results[cell]);
        }
    }
}
