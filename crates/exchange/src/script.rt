// The lists of calls that the sites make.
use crate::network::journeys;
use crate::shown::Shown;
use calls::{Call, Table};
use std::alloc::{AllocError, Global};
use std::iter::{once, repeat_n};

// The numbers by which calls name the tables.
pub const LEFT: u32 = Table::Left as u32;

pub const RIGHT: u32 = Table::Right as u32;

pub const RESULT: u32 = Table::Result as u32;

// Tiles are two rows by two columns, so that five zones have three tiles to a side and a run makes 27 tile products.
const TILE_ORDER: u32 = 1;

pub const TILE_PRODUCTS: usize = 27;

// More tile products than any run here has: a step makes as many as are left.
pub const ALL_AT_ONCE: u64 = 1_000;

// Sets the left and the right table to the direct journeys.
pub fn fill<E: Shown>(heap: Global) -> Result<Vec<Call<E>>, AllocError> {
    let direct = journeys().into_iter().map(|journey| Call::Put {
        table: LEFT,
        row: journey.from.index(),
        column: journey.to.index(),
        value: E::direct(journey.minutes),
    });
    let over = Call::Copy {
        to: RIGHT,
        from: LEFT,
        transposed: false,
    };
    once(Call::Clear { table: LEFT })
        .chain(direct)
        .chain(once(over))
        .collect(heap)
}

// A call, and the same in words.
#[derive(Clone, Copy)]
pub struct Question<E> {
    pub words: &'static str,
    pub call: Call<E>,
}

// The list that both sites make: a whole run, with some calls on the way that have to be declined.
pub fn same_for_both<E: Shown>(heap: Global) -> Result<Vec<Question<E>>, AllocError> {
    let mut questions = Vec::new(heap);
    let mut ask = |words, call| questions.push(Question { words, call });
    ask("step 1", Call::Step { count: 1 })?;
    ask("get row 0, column 5 of result", get_result(0, 5))?;
    ask("begin with tile order 13", Call::Begin { order: 13 })?;
    ask("clear result", Call::Clear { table: RESULT })?;
    ask("begin with tile order 1", Call::Begin { order: TILE_ORDER })?;
    ask("clear left", Call::Clear { table: LEFT })?;
    ask("step 10", Call::Step { count: 10 })?;
    ask("remaining", Call::Remaining)?;
    ask("step 1000", Call::Step { count: ALL_AT_ONCE })?;
    ask("remaining", Call::Remaining)?;
    ask("end", Call::End)?;
    ask("get row 0, column 4 of result", get_result(0, 4))?;
    ask("get row 3, column 4 of result", get_result(3, 4))?;
    Ok(questions)
}

fn get_result<E>(row: u32, column: u32) -> Call<E> {
    Call::Get {
        table: RESULT,
        row,
        column,
    }
}

// The product once more, in as many steps as are given, each of as many tile products as are given.
pub fn product<E: Shown>(
    heap: Global,
    steps: usize,
    count: u64,
) -> Result<Vec<Call<E>>, AllocError> {
    once(Call::Clear { table: RESULT })
        .chain(once(Call::Begin { order: TILE_ORDER }))
        .chain(repeat_n(Call::Step { count }, steps))
        .chain(once(Call::End))
        .collect(heap)
}
