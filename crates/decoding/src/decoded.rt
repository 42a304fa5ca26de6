// One number of a descriptor, as it is read.
ghost use Rattle.std.specs.Prelude.{◌≡◌, take, drop};
ghost use Rattle.decoding.specs.Reading.{number_at};

use crate::fault::Fault;
use masked::Refusal;

// A number, and the offset of the byte after it.
#[derive(Clone, Copy)]
pub struct Number {
    pub value: u32,
    pub next: usize,
}

// The bytes from an offset on, four at most. Past the end there are none.
fn first_four(input: &[u8], at: usize) -> &[u8]
    ensures { result.now ≡ take 4 (drop at input.now) }
{
    let rest = input.get(at..).unwrap_or(&[]);
    rest.get(..4).unwrap_or(rest)
}

// The number that begins at an offset of the input. It has at most four bytes, and no byte outside the input is read.
#[tactic(auto, using(crate::proofs::Decoding::so_far_none, crate::proofs::Decoding::so_far_more, crate::proofs::Decoding::four_at))]
pub fn number_at(input: &[u8], at: usize) -> Result<Number, Fault>
    ensures { result ≡ number_at input.now at }
{
    let bytes = first_four(input, at);
    let mut value = 0u32;
    for (group, &byte) in bytes.iter().enumerate() {
        let byte = u32::from(byte);
        value += (byte % 128) << (7 * group);
        if byte < 128 {
            if byte == 0 && group > 0 {
                return Err(Fault::new(Refusal::Padded, at));
            }
            return Ok(Number {
                value,
                next: at + group + 1,
            });
        }
    }
    if bytes.len() < 4 {
        return Err(Fault::new(Refusal::Ended, input.len()));
    }
    Err(Fault::new(Refusal::TooLong, at))
}
