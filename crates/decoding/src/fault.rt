// Why a descriptor was refused, and where.
ghost use Rattle.std.specs.Prelude.{◌≡◌};
ghost use Rattle.decoding.specs.Reading.{fault};

use masked::Refusal;

// The place is the offset of the first byte of the number at fault. Where the input ended too early it is the length of the
// input, and where bytes follow the descriptor it is the offset of the first of them.
#[derive(Clone, Copy, PartialEq, Eq, Debug)]
pub struct Fault {
    pub refusal: Refusal,
    pub place: usize,
}

impl Fault {
    pub fn new(refusal: Refusal, place: usize) -> Fault
        ensures { result ≡ fault refusal place }
    {
        Fault { refusal, place }
    }
}
