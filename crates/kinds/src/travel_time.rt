// How long a journey takes. 4,294,967,295 means that there is no path.
ghost use Rattle.std.specs.Prelude.{◌≡◌, ◌^◌, ◌<◌};

#[derive(Clone, Copy, PartialEq, Eq, Debug)]
pub struct TravelTime {
    pub value: u32,
    ghost fits: { value < 2 ^ 32 },
}

impl TravelTime {
    // The element of a plain number; its field `value` gives the number back.
    pub fn new(value: u32) -> TravelTime
        ensures { result.value ≡ value }
    {
        TravelTime { value }
    }
}
