// Named orders.
ghost use Rattle.std.specs.Prelude.{◌≡◌, ◌≤◌};
ghost use Rattle.layouts.specs.Layouts.{layout_plan};
ghost use Rattle.makers.specs.Makers.{planned, from_masks};
ghost use Rattle.orders.specs.Orders.{named_order};
ghost use Rattle.orders.specs.Positions.{column_full, row_full};

use layouts::Layout;
use makers::{from_column_stride, from_masks, from_row_stride};
use masked::Refusal;
use placement::Shape;

// The positions of the rows' bits and of the columns' bits: for the columns a run of `inner` from position 0, for the rows
// one after it, and above both every other position for each.
fn positions(inner: u32) -> (u32, u32)
    requires { inner ≤ 12 }
    ensures rows { result.0 ≡ row_full inner }
    ensures columns { result.1 ≡ column_full inner }
{
    let run = (1 << inner) - 1;
    let rows = (run << inner) | (0xaaaa_aaaa << (2 * inner));
    let columns = run | (0x5555_5555 << (2 * inner));
    (rows, columns)
}

fn at_positions(shape: Shape, row_mask: u32, column_mask: u32) -> Result<Layout, Refusal>
    ensures { planned layout_plan result ≡ from_masks shape.rows shape.columns row_mask column_mask }
{
    from_masks(shape, row_mask, column_mask).map(Layout::Masks)
}

// The layout of a named order. R has its rows one after another and C its columns; Z has columns and rows by turns from
// position 0, N rows and columns; H has a run of `inner` columns and one of `inner` rows below that. Only H takes an inner
// width, up to 12.
pub fn named(letter: char, shape: Shape, inner: u32) -> Result<Layout, Refusal>
    ensures { planned layout_plan result ≡ named_order letter shape.rows shape.columns inner }
{
    let widest = if letter == 'H' { 12 } else { 0 };
    if inner > widest {
        return Err(Refusal::Order);
    }
    let (rows, columns) = positions(inner);
    match letter {
        'R' => from_row_stride(shape, shape.columns),
        'C' => from_column_stride(shape, shape.rows),
        'Z' | 'H' => at_positions(shape, rows, columns),
        'N' => at_positions(shape, columns, rows),
        _ => Err(Refusal::Order),
    }
}
