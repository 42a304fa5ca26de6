// The parts of a cell, one under each mask: neither spread nor gather can refuse there.
ghost use Rattle.std.specs.Prelude.{◌≡◌, ◌+◌, ◌^◌, ◌<◌, bit_and, count_ones};
ghost use Rattle.fields.specs.Fields.{spread as spread_of, gather as gather_of};

use masked::{gather, spread, sum};

// The part of a row or a column that has room under its mask.
pub(crate) fn part(index: u32, mask: u32) -> u32
    requires { index < 2 ^ count_ones mask }
    ensures { result ≡ spread_of index mask }
{
    spread(index, mask).unwrap()
}

// The row or the column whose part it is.
pub(crate) fn index_of(part: u32, mask: u32) -> u32
    requires { bit_and part mask ≡ part }
    ensures { result ≡ gather_of part mask }
{
    gather(part, mask).unwrap()
}

// The part moved on by a distance: the field's sum, which does not come round.
pub(crate) fn moved_part(from: u32, distance: u32, mask: u32) -> u32
    requires inside { bit_and from mask ≡ from }
    requires room { gather_of from mask + distance < 2 ^ count_ones mask }
    ensures { result ≡ spread_of (gather_of from mask + distance) mask }
{
    let step = part(distance, mask);
    sum(from, step, mask).unwrap()
}
