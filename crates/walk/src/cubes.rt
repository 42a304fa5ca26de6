// Cubes of tiles, through which the way to a triple goes.
ghost use Rattle.std.specs.Prelude.{◌≡◌, ◌+◌, ◌≤◌};
ghost use Rattle.walk.specs.Rooms.{Room, extent_of};

use crate::sizes::{Grid, Triple};

// A cube: the triples whose numbers are those of `at`, each followed by `height` more bits. It lies among the first
// 4,096 tiles of each side.
#[derive(Clone, Copy)]
pub(crate) struct Cube {
    pub(crate) at: Triple,
    pub(crate) height: u32,
    ghost room: { Room height at },
}

// How many of the 2^height numbers from at × 2^height on are below the tiles of a side.
fn extent(tiles: u32, height: u32, at: u32) -> u64
    requires height_bound { height ≤ 12 }
    requires at_bound { at ≤ 4096 }
    ensures { result ≡ extent_of tiles height at }
{
    let span = 1u32 << height;
    tiles.saturating_sub(at * span).min(span) as u64
}

impl Cube {
    ghost use Rattle.walk.specs.Walks.{child_of, children_of};
    ghost use Rattle.walk.specs.Steps.{size_of, StandAt};

    // How many triples inside the grid the cube has.
    pub(crate) fn size(self, grid: Grid) -> u64
        ensures { result ≡ size_of grid self }
    {
        extent(grid.rows, self.height, self.at.row)
            * extent(grid.columns, self.height, self.at.column)
            * extent(grid.middle, self.height, self.at.middle)
    }

    // The child whose numbers are followed by these bits.
    fn child(self, row: u32, column: u32, middle: u32) -> Cube
        requires height { 1 ≤ self.height }
        requires bits { (row ≤ 1) × ((column ≤ 1) × (middle ≤ 1)) }
        ensures at { result.at ≡ child_of self.at row column middle }
        ensures height { result.height + 1 ≡ self.height }
    {
        Cube {
            at: Triple {
                row: 2 * self.at.row + row,
                column: 2 * self.at.column + column,
                middle: 2 * self.at.middle + middle,
            },
            height: self.height - 1,
        }
    }

    // The eight children, in the order of the forward walk. A list of the bits with `map` would have these lines too.
    pub(crate) fn children(self) -> [Cube; 8]
        requires { 1 ≤ self.height }
        ensures { StandAt self.height (children_of self.at) result }
    {
        [
            self.child(0, 0, 0),
            self.child(0, 0, 1),
            self.child(0, 1, 1),
            self.child(0, 1, 0),
            self.child(1, 1, 0),
            self.child(1, 1, 1),
            self.child(1, 0, 1),
            self.child(1, 0, 0),
        ]
    }
}
