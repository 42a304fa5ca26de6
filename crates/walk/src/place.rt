// The triple at a place of the walk.
ghost use Rattle.std.specs.Prelude.{◌≡◌, ◌≤◌, true, reverse, length, if◌then◌else◌, Some, None, MatchOption, nat_lt};
ghost use Rattle.std.specs.List.{slice_get};
ghost use Rattle.walk.specs.Walks.{walk_of, allowed, inside, Walks};
ghost use Rattle.walk.specs.Steps.{walked, size_of, turn_of};

use crate::cubes::Cube;
use crate::sizes::{Grid, Sizes, Triple, height, is_allowed};

// Where the way to a triple goes on: a cube with the triple's place in it, walked forward or backward.
#[derive(Clone, Copy)]
enum Turn {
    Forward(Cube, u64),
    Backward(Cube, u64),
}

// Goes along the cubes, which are walked forward and backward by turns, to the one that has the triple at n; none
// where the place lies past all of them.
fn next_turn(grid: Grid, cubes: &[Cube], n: u64) -> Option<Turn>
    ensures { result ≡ turn_of (size_of grid) true cubes.now n }
{
    let mut left = n;
    for (i, cube) in cubes.iter().enumerate() {
        let here = cube.size(grid);
        if left < here {
            return if i % 2 == 0 {
                Some(Turn::Forward(*cube, left))
            } else {
                Some(Turn::Backward(*cube, left))
            };
        }
        left -= here;
    }
    None
}

// The triple at n of the walk of a single tile, the same from either end.
fn only_triple(grid: Grid, cube: Cube, n: u64) -> Option<Triple>
    ensures { result ≡ (if nat_lt n (size_of grid cube) then Some cube.at else None) }
{
    (n < cube.size(grid)).then_some(cube.at)
}

// The triple at n of the forward walk of a cube. Forward and backward are two functions that call each other: the walk is
// defined so, and is read so.
#[cycle(backward_forward)]
fn forward(grid: Grid, cube: Cube, n: u64) -> Option<Triple>
    ensures { result ≡ slice_get (walked grid cube.height cube.at) n }
{
    if cube.height == 0 {
        return only_triple(grid, cube, n);
    }
    let cubes = cube.children();
    match next_turn(grid, &cubes, n)? {
        Turn::Forward(next, rest) => forward(grid, next, rest),
        Turn::Backward(next, rest) => backward(grid, next, rest),
    }
}

// The triple at n of the backward walk of a cube, which is the forward walk read from its end.
#[cycle(backward_forward)]
fn backward(grid: Grid, cube: Cube, n: u64) -> Option<Triple>
    ensures { result ≡ slice_get (reverse (walked grid cube.height cube.at)) n }
{
    if cube.height == 0 {
        return only_triple(grid, cube, n);
    }
    let mut cubes = cube.children();
    cubes.reverse();
    match next_turn(grid, &cubes, n)? {
        Turn::Forward(next, rest) => forward(grid, next, rest),
        Turn::Backward(next, rest) => backward(grid, next, rest),
    }
}

// The triple at n of the walk, counted from 0: none past the end, and none for sizes that are not allowed.
pub fn triple_at(sizes: Sizes, n: u64) -> Option<Triple>
    ensures value { result ≡ slice_get (walk_of sizes) n }
    ensures place { MatchOption result (length (walk_of sizes) ≤ n) (λ t. inside sizes t ≡ true) }
    ensures walks { allowed sizes ≡ true → Walks sizes (walk_of sizes) }
{
    if !is_allowed(sizes) {
        return None;
    }
    let root = Cube {
        at: Triple {
            row: 0,
            column: 0,
            middle: 0,
        },
        height: height(sizes),
    };
    forward(sizes.grid(), root, n)
}
