// The choice of the three layouts: what a maker gives and a descriptor says.
use by_masks::Masks;
use by_strides::{ColumnStride, RowStride};

#[derive(Clone, Copy)]
pub enum Layout {
    Masks(Masks),
    RowStride(RowStride),
    ColumnStride(ColumnStride),
}
