// The reflected walk, written out as a list from the lowest height up.
use std::alloc::{AllocError, Global};

// A tile triple: the tile's row, its column, and its middle index.
#[derive(Clone, Copy)]
pub struct Spot {
    pub row: u32,
    pub column: u32,
    pub middle: u32,
}

// The sides of a product.
#[derive(Clone, Copy)]
pub struct Sides {
    pub rows: u32,
    pub columns: u32,
    pub middle: u32,
}

// A child of a walk: the top bits of row, column and middle, and whether the child is walked forward.
#[derive(Clone, Copy)]
struct Child {
    top: Spot,
    is_forward: bool,
}

fn walked(row: u32, column: u32, middle: u32, is_forward: bool) -> Child {
    let top = Spot {
        row,
        column,
        middle,
    };
    Child { top, is_forward }
}

// The children of a walk in their order.
fn children() -> [Child; 8] {
    [
        walked(0, 0, 0, true),
        walked(0, 0, 1, false),
        walked(0, 1, 1, true),
        walked(0, 1, 0, false),
        walked(1, 1, 0, true),
        walked(1, 1, 1, false),
        walked(1, 0, 1, true),
        walked(1, 0, 0, false),
    ]
}

// A triple with top bits put before it, each worth the given number.
fn beneath(spot: Spot, top: Spot, worth: u32) -> Spot {
    Spot {
        row: spot.row.wrapping_add(top.row.wrapping_mul(worth)),
        column: spot.column.wrapping_add(top.column.wrapping_mul(worth)),
        middle: spot.middle.wrapping_add(top.middle.wrapping_mul(worth)),
    }
}

// The forward walk one height above the given one, whose sides are the given number long.
fn above(heap: Global, walk: &[Spot], worth: u32) -> Result<Vec<Spot>, AllocError> {
    let mut taller = Vec::new(heap);
    for Child { top, is_forward } in children() {
        let place = |spot: &Spot| beneath(*spot, top, worth);
        if is_forward {
            taller.extend(walk.iter().map(place))?;
        } else {
            taller.extend(walk.iter().rev().map(place))?;
        }
    }
    Ok(taller)
}

// How often a side has to be doubled, from 1 on, to be at least as long as the longest of the three.
fn doublings(sides: Sides) -> u32 {
    let longest = sides.rows.max(sides.columns).max(sides.middle);
    (0..12u32)
        .find(|count| 1 << *count >= longest)
        .unwrap_or(12)
}

// Whether a triple begins inside.
fn is_inside(spot: Spot, sides: Sides, tile: u32) -> bool {
    spot.row.saturating_mul(tile) < sides.rows
        && spot.column.saturating_mul(tile) < sides.columns
        && spot.middle.saturating_mul(tile) < sides.middle
}

// The whole walk of a product in tiles of the given order.
pub fn walk_of(heap: Global, sides: Sides, order: u32) -> Result<Vec<Spot>, AllocError> {
    let first = Spot {
        row: 0,
        column: 0,
        middle: 0,
    };
    let mut walk = Vec::from_slice(heap, &[first])?;
    for height in 0..doublings(sides).saturating_sub(order) {
        walk = above(heap, walk.as_slice(), 1u32.wrapping_shl(height))?;
    }
    let tile = 1u32.wrapping_shl(order);
    walk.retain(|spot| is_inside(*spot, sides, tile));
    Ok(walk)
}
