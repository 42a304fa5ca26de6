// Makers: the one layout for given masks, and for a given stride.
#![tactic(auto)]

mod masks;
mod strides;

pub use masks::from_masks;
pub use strides::{from_column_stride, from_row_stride};
