// Masks: the numbers of a placement by a row mask and a column mask. The ghost fields are what makes it legal, so that
// every value of the type is a placement. They are one fact each, so that whoever makes a value is asked for each by itself.
ghost use Rattle.std.specs.Prelude.{◌≡◌, ◌-◌, ◌^◌, ◌<◌, bit_and, count_ones};
ghost use Rattle.fields.specs.Fields.{width};
ghost use Rattle.plans.specs.Conditions.{Side};

use placement::Shape;

#[derive(Clone, Copy)]
pub struct Masks {
    pub shape: Shape,
    pub row_mask: u32,
    pub column_mask: u32,
    ghost tall: { Side shape.rows },
    ghost broad: { Side shape.columns },
    ghost rowbits: { count_ones row_mask ≡ width (shape.rows - 1) },
    ghost columnbits: { count_ones column_mask ≡ width (shape.columns - 1) },
    ghost rowplaces: { row_mask < 2 ^ 24 },
    ghost columnplaces: { column_mask < 2 ^ 24 },
    ghost unshared: { bit_and row_mask column_mask ≡ 0 },
}
