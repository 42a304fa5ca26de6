// The layouts by strides, one for each axis.
ghost use Rattle.std.specs.Prelude.{◌≡◌};
ghost use Rattle.plans.specs.Plans.{LinesFit, by_stride};
ghost use Rattle.layouts.specs.Layouts.{layout_plan};

use crate::layout::Layout;
use by_strides::{Axis, ByColumns, ByRows, Strides};
use placement::Shape;
use std::marker::PhantomData;

// An axis along which strides are one of the layouts. Which one is all in which the two impls differ, and no parameter names
// a case.
pub trait LayoutAxis: Axis {
    fn layout(shape: Shape, stride: u32) -> Layout
        requires { LinesFit Self.turns shape.rows shape.columns stride }
        ensures { layout_plan result ≡ by_stride Self.turns shape.rows shape.columns stride };
}

impl LayoutAxis for ByRows {
    fn layout(shape: Shape, stride: u32) -> Layout {
        Layout::RowStride(Strides {
            shape,
            stride,
            axis: PhantomData,
        })
    }
}

impl LayoutAxis for ByColumns {
    fn layout(shape: Shape, stride: u32) -> Layout {
        Layout::ColumnStride(Strides {
            shape,
            stride,
            axis: PhantomData,
        })
    }
}
