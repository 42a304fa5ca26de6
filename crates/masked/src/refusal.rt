// Why a call of the library was declined.
ghost use Rattle.std.specs.Prelude.{◌≡◌};
ghost use Rattle.masked.specs.Refusals.{number_of};

#[derive(Clone, Copy, PartialEq, Eq, Debug)]
pub enum Refusal {
    // The input ends before a number that a descriptor needs, or inside it.
    Ended = 1,
    // A number goes on after its fourth byte.
    TooLong = 2,
    // A number of two or more bytes ends in a zero byte, and so is not in its shortest form.
    Padded = 3,
    // The kind of a descriptor is over 2.
    Kind = 4,
    // Rows or columns are outside 1 to 4,096.
    Shape = 5,
    // A mask has too few one-bits, or in a descriptor the wrong number of them.
    MaskBits = 6,
    // A kept mask bit is above position 23. A descriptor's bits are all kept.
    MaskPosition = 7,
    // The kept masks share a bit.
    MaskOverlap = 8,
    // The stride is below the near side, or too large.
    Stride = 9,
    // The stride of a descriptor is one that masks say: a power of two, or the stride of a side with one entry.
    Uncanonical = 10,
    // Bytes follow the descriptor.
    Trailing = 11,
    // The given bytes are fewer than the descriptor's.
    Room = 12,
    // The number has more bits than the mask has ones.
    Field = 13,
    // The level is over 12, or the index belongs to no block.
    Block = 14,
    // A table number is over 2, or a copy names one table twice.
    Table = 15,
    // A store is shorter than its table's span.
    Store = 16,
    // The row or the column lies outside the table.
    Outside = 17,
    // The shapes of tables do not fit together.
    Mismatch = 18,
    // The tile order is over 12.
    TileOrder = 19,
    // Another order letter, an inner width that it does not take, or a line of another form.
    Order = 20,
}

impl Refusal {
    // The number by which documents and programs name the refusal.
    pub fn number(self) -> u8
        ensures { result ≡ number_of self }
    {
        self as u8
    }
}
