// The layouts: placements by masks, by a row stride and by a column stride, and the choice of the three.
#![tactic(auto)]

mod along;
mod kind;
mod layout;
mod layout_placement;

pub use along::LayoutAxis;
pub use by_masks::Masks;
pub use by_strides::{Axis, ByColumns, ByRows, ColumnStride, RowStride, Strides};
pub use kind::LayoutKind;
pub use layout::Layout;
