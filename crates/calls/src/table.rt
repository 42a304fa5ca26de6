// The tables of a trio by their numbers.
ghost use Rattle.std.specs.Prelude.{◌≡◌};
ghost use Rattle.calls.specs.Tables.{table_numbered};

use masked::Refusal;

// The tables of a trio.
#[derive(Clone, Copy, PartialEq, Eq, Debug)]
pub enum Table {
    Left,
    Right,
    Result,
}

// The table of a number: 0 is the left, 1 the right and 2 the result; there is no other.
impl TryFrom<u32> for Table {
    type Error = Refusal;

    ghost try_from_gives = { λ number answer. answer ≡ table_numbered number };

    fn try_from(number: u32) -> Result<Table, Refusal> {
        match number {
            0 => Ok(Table::Left),
            1 => Ok(Table::Right),
            2 => Ok(Table::Result),
            _ => Err(Refusal::Table),
        }
    }
}
