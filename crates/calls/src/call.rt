// Calls and their answers as values.
use masked::Refusal;

// A call of a trio. Tables go by number, 0 left, 1 right, 2 result, and not by `Table`, since a number that is none is a call
// too, with a refusal of its own. Whether a copy is transposed is a flag in the format of calls.
#[derive(Clone, Copy, PartialEq, Eq, Debug)]
pub enum Call<E> {
    // Writes one entry.
    Put {
        table: u32,
        row: u32,
        column: u32,
        value: E,
    },
    // Asks for one entry.
    Get {
        table: u32,
        row: u32,
        column: u32,
    },
    // Sets all entries of a table to zero.
    Clear {
        table: u32,
    },
    // Sets all entries of one table from another, plain or transposed.
    Copy {
        to: u32,
        from: u32,
        transposed: bool,
    },
    // Turns the idle trio into a run of a tile order.
    Begin {
        order: u32,
    },
    // Makes the next tile products of a run, as many as are asked for and are still to make.
    Step {
        count: u64,
    },
    // Asks how many tile products of a run are still to make.
    Remaining,
    // Gives the idle trio back.
    End,
}

// What a call was told. A refusal is one case of six, and a list of calls goes on after it: a `Result` around the other five
// would say the same in two steps.
#[derive(Clone, Copy, PartialEq, Eq, Debug)]
pub enum Answer<E> {
    // The call was made, and there is nothing to tell.
    Done,
    // The entry that was asked for.
    Entry(E),
    // How many tile products a step made.
    Made(u64),
    // How many tile products are still to make.
    ToMake(u64),
    // The call was declined, and changed nothing.
    Refused(Refusal),
    // A call that an idle trio, or a run, does not have: nothing was done.
    NotOffered,
}
