// Placements by a row stride and by a column stride.
#![tactic(auto)]

mod axis;
mod strides;
mod strides_placement;

pub use axis::{Axis, ByColumns, ByRows};
pub use strides::{ColumnStride, RowStride, Strides};
