// Random lists of calls, with what the model answers to them.
use crate::model::Model;
use crate::sample::Sample;
use crate::source::Source;
use calls::{Answer, Call, Table};
use draws::Draws;
use placement::Shape;
use std::alloc::{AllocError, Global};

// A call, and the answer that the model gave to it.
#[derive(Clone, Copy)]
pub struct Told<E> {
    pub call: Call<E>,
    pub answer: Answer<E>,
}

impl<E: Sample> Told<E> {
    // Makes the call on the model.
    pub fn by(model: &mut Model<E>, call: Call<E>) -> Result<Told<E>, AllocError> {
        let answer = model.make(call)?;
        Ok(Told { call, answer })
    }
}

// A number of a table, most often one that there is.
fn random_table(source: &mut Source) -> u32 {
    if source.one_in(12) {
        3
    } else {
        source.below(3)
    }
}

// A row or a column of a side: inside, just outside, or far outside.
fn random_index(source: &mut Source, side: u32) -> u32 {
    match source.below(40) {
        0 => u32::MAX,
        1..=4 => side,
        _ => source.below(side),
    }
}

// Any place of any table: the table's number, the row and the column. A table that there is not has no rows.
fn random_place<E: Sample>(source: &mut Source, model: &Model<E>) -> (u32, u32, u32) {
    let number = random_table(source);
    let shape = match Table::try_from(number) {
        Ok(table) => model.table(table).shape(),
        Err(_) => Shape {
            rows: 0,
            columns: 0,
        },
    };
    let row = random_index(source, shape.rows);
    let column = random_index(source, shape.columns);
    (number, row, column)
}

// A tile order, most often a small one, which has the longest walk.
fn random_order(source: &mut Source) -> u32 {
    source.one_of(&[12, 13, 3, 2, 1, 1, 1, 0, 0, 0, 0, 0])
}

// How many tile products a step asks for.
fn random_count(source: &mut Source) -> u64 {
    match source.below(12) {
        0 => 0,
        1 => 1,
        2 => 2,
        3 => 5,
        4 => u64::MAX,
        _ => u64::from(source.below(40)),
    }
}

// A call that an idle trio has.
fn random_idle_call<E: Sample>(source: &mut Source, model: &Model<E>) -> Call<E> {
    match source.below(20) {
        0..=6 => {
            let (table, row, column) = random_place(source, model);
            Call::Put {
                table,
                row,
                column,
                value: E::sample(source.next()),
            }
        }
        7..=10 => {
            let (table, row, column) = random_place(source, model);
            Call::Get { table, row, column }
        }
        11 => Call::Clear {
            table: random_table(source),
        },
        12..=14 => Call::Copy {
            to: random_table(source),
            from: random_table(source),
            transposed: source.one_in(2),
        },
        _ => Call::Begin {
            order: random_order(source),
        },
    }
}

// A call that a run has.
fn random_run_call<E: Sample>(source: &mut Source) -> Call<E> {
    match source.below(20) {
        0..=13 => Call::Step {
            count: random_count(source),
        },
        14..=16 => Call::Remaining,
        _ => Call::End,
    }
}

// Any call, most often one that the trio has as it is.
fn random_call<E: Sample>(source: &mut Source, model: &Model<E>) -> Call<E> {
    let is_offered = !source.one_in(8);
    if model.is_running() == is_offered {
        random_run_call(source)
    } else {
        random_idle_call(source, model)
    }
}

// 100 to 300 calls, each made on the model as soon as it is drawn: the list and the model grow together.
pub fn random_script<E: Sample>(
    source: &mut Source,
    model: &mut Model<E>,
) -> Result<Vec<Told<E>>, AllocError> {
    let mut script = Vec::new(source.heap);
    for _ in 0..source.below(201).saturating_add(100) {
        let call = random_call(source, model);
        script.push(Told::by(model, call)?)?;
    }
    Ok(script)
}

// The answers of the model to given calls.
pub fn script_of<E: Sample>(
    heap: Global,
    model: &mut Model<E>,
    calls: &[Call<E>],
) -> Result<Vec<Told<E>>, AllocError> {
    calls
        .iter()
        .map(|call| Told::by(model, *call))
        .try_collect(heap)
}
