// From a stride.
ghost use Rattle.std.specs.Prelude.{◌≡◌, ◌+◌, ◌*◌, ◌≤◌};
ghost use Rattle.layouts.specs.Layouts.{layout_plan};
ghost use Rattle.plans.specs.Plans.{line_of, place_of, site_of};
ghost use Rattle.makers.specs.Makers.{planned, Places, from_stride, from_row_stride, from_column_stride};

use crate::masks::{is_allowed, side_bits};
use layouts::{Axis, ByColumns, ByRows, Layout, LayoutAxis, Masks};
use masked::Refusal;
use placement::Shape;

// The layout in which each line begins a stride after the line before it: by masks where the stride is a power of two or
// there is one line, and so no stride to take.
fn from_stride<A: LayoutAxis>(shape: Shape, stride: u32) -> Result<Layout, Refusal>
    ensures plan { planned layout_plan result ≡ from_stride A.turns shape.rows shape.columns stride }
    ensures places { Places (λ l. (site_of (layout_plan l)).cell) (λ i j. stride * line_of A.turns i j + place_of A.turns i j) shape.rows shape.columns result }
{
    if !is_allowed(shape) {
        return Err(Refusal::Shape);
    }
    let (lines, places) = A::turned(shape.rows, shape.columns);
    if !(places..=4096).contains(&stride) {
        return Err(Refusal::Stride);
    }
    if stride.is_power_of_two() || lines == 1 {
        let (row_mask, column_mask) = A::turned(side_bits(lines) * stride, side_bits(places));
        return Ok(Layout::Masks(Masks {
            shape,
            row_mask,
            column_mask,
        }));
    }
    Ok(A::layout(shape, stride))
}

// The layout in which each row begins a stride after the row before it.
pub fn from_row_stride(shape: Shape, stride: u32) -> Result<Layout, Refusal>
    ensures plan { planned layout_plan result ≡ from_row_stride shape.rows shape.columns stride }
    ensures places { Places (λ l. (site_of (layout_plan l)).cell) (λ i j. stride * i + j) shape.rows shape.columns result }
{
    from_stride::<ByRows>(shape, stride)
}

// The layout in which each column begins a stride after the column before it.
pub fn from_column_stride(shape: Shape, stride: u32) -> Result<Layout, Refusal>
    ensures plan { planned layout_plan result ≡ from_column_stride shape.rows shape.columns stride }
    ensures places { Places (λ l. (site_of (layout_plan l)).cell) (λ i j. stride * j + i) shape.rows shape.columns result }
{
    from_stride::<ByColumns>(shape, stride)
}
