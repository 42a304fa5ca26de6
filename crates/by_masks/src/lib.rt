// Placements by a row mask and a column mask.
#![tactic(auto)]

mod masks;
mod masks_placement;
mod moves;
mod parts;

pub use masks::Masks;
