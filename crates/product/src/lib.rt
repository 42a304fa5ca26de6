// The product of one tile: generic loops over the lent stores of three tables.
#![tactic(auto)]

mod entries;
mod tile;

pub use entries::Held;
pub use tile::tile_product;
