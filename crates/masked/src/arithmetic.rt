// Sum, difference and order of numbers under a mask, by register operations and no loop. No operand may have a bit outside the
// mask. Each of the six calls names the law that they are the ordinary arithmetic, since each is called by itself.
ghost use Rattle.std.specs.Prelude.{◌≡◌};
ghost use Rattle.masked.specs.Arithmetic.{sum_answer, difference_answer, plus_one_answer, minus_one_answer, less_answer, equal_answer, Ordinary};

use crate::field::check_inside;
use crate::refusal::Refusal;

// The bits outside the mask are filled with ones, so that a carry runs over them to the next one-bit of the mask.
pub fn sum(a: u32, b: u32, mask: u32) -> Result<u32, Refusal>
    ensures value { result ≡ sum_answer a b mask }
    ensures law { Ordinary mask }
{
    check_inside(a, mask)?;
    check_inside(b, mask)?;
    Ok((a | !mask).wrapping_add(b) & mask)
}

// The bits outside the mask are zero, so that a borrow runs over them to the next one-bit of the mask.
pub fn difference(a: u32, b: u32, mask: u32) -> Result<u32, Refusal>
    ensures value { result ≡ difference_answer a b mask }
    ensures law { Ordinary mask }
{
    check_inside(a, mask)?;
    check_inside(b, mask)?;
    Ok(a.wrapping_sub(b) & mask)
}

// The next number; after the last one comes 0.
pub fn plus_one(a: u32, mask: u32) -> Result<u32, Refusal>
    ensures value { result ≡ plus_one_answer a mask }
    ensures law { Ordinary mask }
{
    check_inside(a, mask)?;
    Ok((a | !mask).wrapping_add(1) & mask)
}

// The number before; before 0 comes the last one.
pub fn minus_one(a: u32, mask: u32) -> Result<u32, Refusal>
    ensures value { result ≡ minus_one_answer a mask }
    ensures law { Ordinary mask }
{
    check_inside(a, mask)?;
    Ok(a.wrapping_sub(1) & mask)
}

// Spreading keeps the order.
pub fn less(a: u32, b: u32, mask: u32) -> Result<bool, Refusal>
    ensures value { result ≡ less_answer a b mask }
    ensures law { Ordinary mask }
{
    check_inside(a, mask)?;
    check_inside(b, mask)?;
    Ok(a < b)
}

// No two numbers are spread to one.
pub fn equal(a: u32, b: u32, mask: u32) -> Result<bool, Refusal>
    ensures value { result ≡ equal_answer a b mask }
    ensures law { Ordinary mask }
{
    check_inside(a, mask)?;
    check_inside(b, mask)?;
    Ok(a == b)
}
