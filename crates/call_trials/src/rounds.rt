// Rounds of random trials.
use crate::lists::random_script;
use crate::report::Report;
use crate::sample::Sample;
use crate::sides::{Sort, layouts_of};
use crate::source::Source;
use crate::three::{TABLES, Three};
use crate::trial::Trial;
use calls::Table;
use draws::Draws;
use placement::Shape;
use std::alloc::{AllocError, Global};

// A side of 1 to 6.
fn random_side(source: &mut Source) -> u32 {
    source.up_to(6)
}

// Any shape.
fn random_shape(source: &mut Source) -> Shape {
    Shape {
        rows: random_side(source),
        columns: random_side(source),
    }
}

// A side that is often the same as another, so that one table can be copied to another.
fn near_side(source: &mut Source, other: u32) -> u32 {
    if source.one_in(3) {
        other
    } else {
        random_side(source)
    }
}

// Shapes that most often fit together.
fn random_shapes(source: &mut Source) -> Three<Shape> {
    let rows = random_side(source);
    let columns = near_side(source, rows);
    let middle = near_side(source, rows);
    let mut shapes = Three {
        left: Shape {
            rows,
            columns: middle,
        },
        right: Shape {
            rows: middle,
            columns,
        },
        result: Shape { rows, columns },
    };
    match source.below(24) {
        0 => shapes.left = random_shape(source),
        1 => shapes.right = random_shape(source),
        2 => shapes.result = random_shape(source),
        _ => {}
    }
    shapes
}

// The table whose store is too short in a round, most often none.
fn random_short(source: &mut Source) -> Option<Table> {
    if source.one_in(10) {
        Some(source.one_of(&TABLES))
    } else {
        None
    }
}

// One round: whether both trios do as the model does at a random list of calls.
fn one_round<E: Sample>(source: &mut Source, report: &mut Report) -> Result<bool, AllocError> {
    let shapes = random_shapes(source);
    let sorts = Three::each(|_| Sort::random(source));
    let other_sorts = Three::each(|table| sorts.of(table).other(source));
    let Ok(layouts) = layouts_of(source, &sorts, &shapes) else {
        return Ok(false);
    };
    let Ok(others) = layouts_of(source, &other_sorts, &shapes) else {
        return Ok(false);
    };
    let short = random_short(source);
    let mut trial: Trial<E> = Trial::new(source, &shapes, &layouts, &others, short)?;
    let script = random_script(source, &mut trial.model)?;
    trial.count(script.as_slice(), report);
    trial.agrees(source.heap, script.as_slice())
}

// A thousand rounds of one kind.
pub fn random_rounds<E: Sample>(heap: Global, seed: u64) -> Result<Report, AllocError> {
    let mut report = Report::new(seed);
    for round in 0..1_000u32 {
        let mut source = Source::new(heap, seed, round);
        let agrees = one_round::<E>(&mut source, &mut report)?;
        report.note_round(round, agrees);
    }
    Ok(report)
}
