// Width, spread and gather.
ghost use Rattle.std.specs.Prelude.{◌≡◌, IfOk, bit_and};
ghost use Rattle.fields.specs.Fields.{width as width_of, Wide, Spread, Undone};
ghost use Rattle.masked.specs.Fields.{spread_answer, inside_answer, gather_answer};

use crate::refusal::Refusal;

// How many binary digits n has; 0 has none.
pub fn width(n: u32) -> u32
    ensures value { result ≡ width_of n }
    ensures law { Wide n result }
{
    32 - n.leading_zeros()
}

// Bit 0 of n at the lowest one-bit of the mask, bit 1 at the next, and so on.
pub fn spread(n: u32, mask: u32) -> Result<u32, Refusal>
    ensures value { result ≡ spread_answer n mask }
    ensures law { IfOk result (λ v. Spread n mask v) }
{
    if width(n) > mask.count_ones() {
        return Err(Refusal::Field);
    }
    let mut out = 0u32;
    let mut bits = n;
    let mut left = mask;
    // From one-bit to one-bit of the mask, and no further than the number goes: `address` calls this for every entry.
    while bits != 0 {
        let rest = left & (left - 1);
        if bits % 2 == 1 {
            out += left - rest;
        }
        left = rest;
        bits /= 2;
    }
    Ok(out)
}

// Refuses a number that has a bit outside the mask.
pub(crate) fn check_inside(v: u32, mask: u32) -> Result<(), Refusal>
    ensures value { result ≡ inside_answer v mask }
    ensures inside { IfOk result (λ _. bit_and v mask ≡ v) }
{
    if v & mask != v {
        return Err(Refusal::Field);
    }
    Ok(())
}

// The bits of v at the one-bits of the mask, lowest first: what spread put there. They are taken from the mask's highest down,
// each behind those before it.
pub fn gather(v: u32, mask: u32) -> Result<u32, Refusal>
    ensures value { result ≡ gather_answer v mask }
    ensures law { Undone mask }
{
    check_inside(v, mask)?;
    let mut out = 0u32;
    for position in (0..width(mask)).rev() {
        if (mask >> position) % 2 == 1 {
            out = 2 * out + (v >> position) % 2;
        }
    }
    Ok(out)
}
