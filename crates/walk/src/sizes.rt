// The sizes of a product, its tiles, and how many there are.
ghost use Rattle.std.specs.Prelude.{◌≡◌, ◌≤◌, true, length};
ghost use Rattle.walk.specs.Walks.{Walks, Least, least_height, height_of, allowed, reflected, walk_of, all_tiles, tiles_of};
ghost use Rattle.walk.specs.Steps.{grid_of};

// A tile of the product: its rows begin at row × 2^t, its columns at column × 2^t and its middle
// indices at middle × 2^t, where t is the tile order, and each runs over 2^t, cut at the edge.
#[derive(Clone, Copy, PartialEq, Eq, Debug)]
pub struct Triple {
    pub row: u32,
    pub column: u32,
    pub middle: u32,
}

// A product of a table of rows by middle with one of middle by columns, in tiles of an order.
#[derive(Clone, Copy, PartialEq, Eq, Debug)]
pub struct Sizes {
    pub rows: u32,
    pub columns: u32,
    pub middle: u32,
    pub order: u32,
}

// How many tiles each side of the product has.
#[derive(Clone, Copy)]
pub(crate) struct Grid {
    pub(crate) rows: u32,
    pub(crate) columns: u32,
    pub(crate) middle: u32,
}

const LARGEST_SIDE: u32 = 4096;

const LARGEST_ORDER: u32 = 12;

// Whether the sides are from 1 to 4,096 and the order from 0 to 12.
#[tactic(auto, unfolding(crate::specs::Walks::allowed))]
pub(crate) fn is_allowed(sizes: Sizes) -> bool
    ensures { result ≡ allowed sizes }
{
    [sizes.rows, sizes.columns, sizes.middle]
        .iter()
        .all(|side| (1..=LARGEST_SIDE).contains(side))
        && sizes.order <= LARGEST_ORDER
}

// The height of the walk: the least h with 2^h at least each side, less the tile order, or 0 where the order is larger.
pub fn height(sizes: Sizes) -> u32
    ensures value { result ≡ height_of sizes }
    ensures least { Least sizes (least_height sizes) }
{
    let longest = sizes.rows.max(sizes.columns.max(sizes.middle));
    masked::width(longest.saturating_sub(1)).saturating_sub(sizes.order)
}

// How many tiles of the order cover a side.
fn tiles(side: u32, order: u32) -> u32
    requires { order ≤ 12 }
    ensures { result ≡ tiles_of side order }
{
    side.div_ceil(1 << order)
}

impl Sizes {
    // How many tiles each side has.
    pub(crate) fn grid(self) -> Grid
        requires { self.order ≤ 12 }
        ensures { result ≡ grid_of self }
    {
        Grid {
            rows: tiles(self.rows, self.order),
            columns: tiles(self.columns, self.order),
            middle: tiles(self.middle, self.order),
        }
    }
}

// How many triples the walk has: none for sizes that are not allowed.
pub fn count(sizes: Sizes) -> u64
    ensures value { result ≡ length (walk_of sizes) }
    ensures product { allowed sizes ≡ true → result ≡ all_tiles sizes }
    ensures walks { Walks sizes (reflected sizes) }
{
    if !is_allowed(sizes) {
        return 0;
    }
    let grid = sizes.grid();
    grid.rows as u64 * grid.columns as u64 * grid.middle as u64
}
