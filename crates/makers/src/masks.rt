// From masks.
ghost use Rattle.std.specs.Prelude.{◌≡◌, ◌+◌, ◌-◌, ◌≤◌, count_ones};
ghost use Rattle.fields.specs.Fields.{spread as spread_of, width as width_of};
ghost use Rattle.by_masks.specs.Layouts.{masks_plan};
ghost use Rattle.plans.specs.Conditions.{Side};
ghost use Rattle.plans.specs.Plans.{site_of};
ghost use Rattle.makers.specs.Makers.{planned, Places, shaped, side_bits as bits_of, lowest as lowest_of, from_masks};

use layouts::Masks;
use masked::{Refusal, spread, width};
use placement::Shape;

// Rows and columns are each 1 to 4,096.
pub(crate) fn is_allowed(shape: Shape) -> bool
    ensures { result ≡ shaped shape.rows shape.columns }
{
    (1..=4096).contains(&shape.rows) && (1..=4096).contains(&shape.columns)
}

// The bits of a side of 1 to 4,096 entries, from position 0 on: as many as the last entry has binary digits.
pub(crate) fn side_bits(entries: u32) -> u32
    requires { Side entries }
    ensures { result ≡ bits_of entries }
{
    entries.next_power_of_two() - 1
}

// As many of the lowest one-bits of the mask, which has that many.
fn lowest(entries: u32, mask: u32) -> u32
    requires { (Side entries) × (width_of (entries - 1) ≤ count_ones mask) }
    ensures { result ≡ lowest_of (width_of (entries - 1)) mask }
{
    spread(side_bits(entries), mask).unwrap()
}

// The layout by a row mask and a column mask. Of each mask the lowest bits are kept, as many as the last row and the last
// column have binary digits, and only kept bits are judged.
pub fn from_masks(shape: Shape, row_mask: u32, column_mask: u32) -> Result<Masks, Refusal>
    ensures plan { planned masks_plan result ≡ from_masks shape.rows shape.columns row_mask column_mask }
    ensures places { Places (λ m. (site_of (masks_plan m)).cell) (λ i j. spread_of i row_mask + spread_of j column_mask) shape.rows shape.columns result }
{
    if !is_allowed(shape) {
        return Err(Refusal::Shape);
    }
    let row_width = width(shape.rows - 1);
    let column_width = width(shape.columns - 1);
    if row_mask.count_ones() < row_width || column_mask.count_ones() < column_width {
        return Err(Refusal::MaskBits);
    }
    let row_mask = lowest(shape.rows, row_mask);
    let column_mask = lowest(shape.columns, column_mask);
    if row_mask >= 1 << 24 || column_mask >= 1 << 24 {
        return Err(Refusal::MaskPosition);
    }
    if row_mask & column_mask != 0 {
        return Err(Refusal::MaskOverlap);
    }
    Ok(Masks {
        shape,
        row_mask,
        column_mask,
    })
}
