// How many: sums and products are taken modulo 2^32. It is a type of its own beside TravelTime: what the number means is all
// that tells them apart, and a parameter that says so is no plainer than two names.
ghost use Rattle.std.specs.Prelude.{◌≡◌, ◌^◌, ◌<◌};

#[derive(Clone, Copy, PartialEq, Eq, Debug)]
pub struct Count {
    pub value: u32,
    ghost fits: { value < 2 ^ 32 },
}

impl Count {
    // The element of a plain number; its field `value` gives the number back.
    pub fn new(value: u32) -> Count
        ensures { result.value ≡ value }
    {
        Count { value }
    }
}
