// One list of calls with a known end: the best of two journeys, one of which has no path.
use crate::lists::script_of;
use crate::report::Report;
use crate::sides::{Sort, layouts_of};
use crate::source::Source;
use crate::three::Three;
use crate::trial::Trial;
use calls::{Answer, Call, Table};
use kinds::TravelTime;
use placement::Shape;
use std::alloc::{AllocError, Global};

// 4,294,967,295 is no path.
const NO_PATH: u32 = u32::MAX;

// A put of so many minutes.
fn put(table: Table, row: u32, column: u32, value: u32) -> Call<TravelTime> {
    Call::Put {
        table: table as u32,
        row,
        column,
        value: TravelTime::new(value),
    }
}

// Fills left (3, no path), right (4, 5) as a column and the result (no path), multiplies, and asks for the result.
fn journey_calls() -> [Call<TravelTime>; 10] {
    [
        put(Table::Left, 0, 0, 3),
        put(Table::Left, 0, 1, NO_PATH),
        put(Table::Right, 0, 0, 4),
        put(Table::Right, 1, 0, 5),
        put(Table::Result, 0, 0, NO_PATH),
        Call::Begin { order: 0 },
        Call::Step { count: u64::MAX },
        Call::Remaining,
        Call::End,
        Call::Get {
            table: Table::Result as u32,
            row: 0,
            column: 0,
        },
    ]
}

// Tables of 1 by 2, 2 by 1 and 1 by 1.
fn journey_shapes() -> Three<Shape> {
    Three {
        left: Shape {
            rows: 1,
            columns: 2,
        },
        right: Shape {
            rows: 2,
            columns: 1,
        },
        result: Shape {
            rows: 1,
            columns: 1,
        },
    }
}

// All three tables row by row.
fn by_rows() -> Three<Sort> {
    Three::each(|_| Sort::Rows)
}

// Three other placements.
fn mixed() -> Three<Sort> {
    Three {
        left: Sort::Slanted,
        right: Sort::ColumnStride,
        result: Sort::RowStride,
    }
}

// Whether a trio row by row and one with other placements do as the model does, and end as 7.
fn is_seven(source: &mut Source, report: &mut Report) -> Result<bool, AllocError> {
    let shapes = journey_shapes();
    let Ok(layouts) = layouts_of(source, &by_rows(), &shapes) else {
        return Ok(false);
    };
    let Ok(others) = layouts_of(source, &mixed(), &shapes) else {
        return Ok(false);
    };
    let mut trial = Trial::new(source, &shapes, &layouts, &others, None)?;
    let script = script_of(source.heap, &mut trial.model, &journey_calls())?;
    trial.count(script.as_slice(), report);
    let seven = Answer::Entry(TravelTime::new(7));
    let ends_as_seven = script.last().is_some_and(|told| told.answer == seven);
    Ok(ends_as_seven && trial.agrees(source.heap, script.as_slice())?)
}

// The one case.
pub fn best_of_two(heap: Global, seed: u64) -> Result<Report, AllocError> {
    let mut report = Report::new(seed);
    let mut source = Source::new(heap, seed, 0);
    let is_same = is_seven(&mut source, &mut report)?;
    report.note_round(0, is_same);
    Ok(report)
}
