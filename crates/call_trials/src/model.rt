// A trio as three plain tables, with every call written out from its description: no placement, no store, no library walk.
use crate::grid::Grid;
use crate::sample::Sample;
use crate::source::Source;
use crate::three::Three;
use crate::triples::{Sides, Spot, walk_of};
use calls::{Answer, Call, Table};
use masked::Refusal;
use placement::Shape;
use std::alloc::{AllocError, Global};
use thiserror::Error;

// A run: its tile order, and the triples that are still to make, in order.
#[derive(Drop)]
struct Course {
    order: u32,
    rest: Vec<Spot>,
}

// Why a call was not made.
#[derive(Debug, Drop, Error)]
enum Stop {
    // It was declined.
    #[error("refusal: {0:?}")]
    Declined(#[from] Refusal),
    // There was not enough memory for the model.
    #[error(transparent)]
    Memory(#[from(alloc)] AllocError),
}

// Where lists are made, the tables, whether all stores are long enough, the run if there is one, and how many runs were
// finished.
#[derive(Drop)]
pub struct Model<E> {
    heap: Global,
    tables: Three<Grid<E>>,
    is_stored: bool,
    course: Option<Course>,
    finished: u64,
}

// The table of a number, by the description and not by the library: 0 left, 1 right, 2 result.
fn numbered(number: u32) -> Result<Table, Refusal> {
    match number {
        0 => Ok(Table::Left),
        1 => Ok(Table::Right),
        2 => Ok(Table::Result),
        _ => Err(Refusal::Table),
    }
}

// Whether a number is one of those that a tile covers.
fn is_covered(n: u32, tile: u32, side: u32) -> bool {
    n.checked_div(side) == Some(tile)
}

impl<E: Sample> Model<E> {
    // An idle trio of three tables with random entries.
    pub fn random(
        source: &mut Source,
        shapes: &Three<Shape>,
        is_stored: bool,
    ) -> Result<Model<E>, AllocError> {
        Ok(Model {
            heap: source.heap,
            tables: Three {
                left: Grid::random(source, shapes.left)?,
                right: Grid::random(source, shapes.right)?,
                result: Grid::random(source, shapes.result)?,
            },
            is_stored,
            course: None,
            finished: 0,
        })
    }

    // Whether a run was begun and not ended.
    pub fn is_running(&self) -> bool {
        self.course.is_some()
    }

    // Whether all three stores are long enough.
    pub fn is_stored(&self) -> bool {
        self.is_stored
    }

    // How many runs were finished.
    pub fn finished(&self) -> u64 {
        self.finished
    }

    // One of the tables.
    pub fn table(&self, table: Table) -> &Grid<E> {
        self.tables.of(table)
    }

    // The refusal that comes before all others but that of a table's number.
    fn stored(&self) -> Result<(), Refusal> {
        if self.is_stored {
            Ok(())
        } else {
            Err(Refusal::Store)
        }
    }

    // Refusals 15, 16, 17, and else writes an entry.
    fn put(&mut self, table: u32, row: u32, column: u32, value: E) -> Result<(), Refusal> {
        let table = numbered(table)?;
        self.stored()?;
        let grid = self.tables.of_mut(table);
        *grid.entry_mut(row, column).ok_or(Refusal::Outside)? = value;
        Ok(())
    }

    // Refusals 15, 16, 17, and else the entry.
    fn get(&self, table: u32, row: u32, column: u32) -> Result<E, Refusal> {
        let table = numbered(table)?;
        self.stored()?;
        self.table(table).entry(row, column).ok_or(Refusal::Outside)
    }

    // Refusals 15, 16, and else all entries become zero.
    fn clear(&mut self, table: u32) -> Result<(), Refusal> {
        let table = numbered(table)?;
        self.stored()?;
        self.tables.of_mut(table).clear();
        Ok(())
    }

    // Refusals 15, 16, 18, and else all entries are taken over, one by one: no memory is wanted for it.
    fn copy(&mut self, to: u32, from: u32, transposed: bool) -> Result<(), Refusal> {
        let target = numbered(to)?;
        let source = numbered(from)?;
        if target == source {
            return Err(Refusal::Table);
        }
        self.stored()?;
        let turned = |row, column| if transposed {
            (column, row)
        } else {
            (row, column)
        };
        let shape = self.table(target).shape();
        let taken = self.table(source).shape();
        if (shape.rows, shape.columns) != turned(taken.rows, taken.columns) {
            return Err(Refusal::Mismatch);
        }
        for row in 0..shape.rows {
            for column in 0..shape.columns {
                let (i, j) = turned(row, column);
                let value = self.table(source).or_zero(i, j);
                if let Some(entry) = self.tables.of_mut(target).entry_mut(row, column) {
                    *entry = value;
                }
            }
        }
        Ok(())
    }

    // The sides of the product, or refusal 18 where the tables do not fit together.
    fn sides(&self) -> Result<Sides, Refusal> {
        let left = self.tables.left.shape();
        let right = self.tables.right.shape();
        let result = self.tables.result.shape();
        if left.columns != right.rows
            || left.rows != result.rows
            || right.columns != result.columns
        {
            return Err(Refusal::Mismatch);
        }
        Ok(Sides {
            rows: result.rows,
            columns: result.columns,
            middle: left.columns,
        })
    }

    // Refusals 18, 19, and else a run begins.
    fn begin(&mut self, order: u32) -> Result<(), Stop> {
        let sides = self.sides()?;
        if order > 12 {
            return Err(Stop::Declined(Refusal::TileOrder));
        }
        let rest = walk_of(self.heap, sides, order)?;
        self.course = Some(Course { order, rest });
        Ok(())
    }

    // Adds to one entry of the result the terms of a tile's middle indices.
    fn add_terms(&mut self, row: u32, column: u32, tile: u32, side: u32) {
        let (left, right) = (&self.tables.left, &self.tables.right);
        let term = |middle: u32| left
            .or_zero(row, middle)
            .times(right.or_zero(middle, column));
        let sum = (0..left.shape().columns)
            .filter(|middle| is_covered(*middle, tile, side))
            .map(term)
            .fold(self.tables.result.or_zero(row, column), E::plus);
        if let Some(entry) = self.tables.result.entry_mut(row, column) {
            *entry = sum;
        }
    }

    // Makes the product of one triple.
    fn add_tile(&mut self, order: u32, spot: Spot) {
        let side = 1u32.wrapping_shl(order);
        let shape = self.tables.result.shape();
        let rows = (0..shape.rows).filter(|n| is_covered(*n, spot.row, side));
        for row in rows {
            let columns = (0..shape.columns).filter(|n| is_covered(*n, spot.column, side));
            for column in columns {
                self.add_terms(row, column, spot.middle, side);
            }
        }
    }

    // Refusal 16, and else the next triples are made, as many as are asked for and remain.
    fn step(&mut self, course: &mut Course, count: u64) -> Result<Answer<E>, Stop> {
        self.stored()?;
        let order = course.order;
        let making = course.rest.len().min(count as usize);
        for spot in course.rest.drain(..making) {
            self.add_tile(order, spot);
        }
        if making > 0 && course.rest.is_empty() {
            self.finished = self.finished.saturating_add(1);
        }
        Ok(Answer::Made(making as u64))
    }

    // Makes a call of an idle trio.
    fn make_idle(&mut self, call: Call<E>) -> Result<Answer<E>, Stop> {
        match call {
            Call::Put {
                table,
                row,
                column,
                value,
            } => self.put(table, row, column, value)?,
            Call::Get { table, row, column } => {
                return Ok(Answer::Entry(self.get(table, row, column)?));
            }
            Call::Clear { table } => self.clear(table)?,
            Call::Copy {
                to,
                from,
                transposed,
            } => self.copy(to, from, transposed)?,
            Call::Begin { order } => self.begin(order)?,
            Call::Step { .. } | Call::Remaining | Call::End => return Ok(Answer::NotOffered),
        }
        Ok(Answer::Done)
    }

    // Makes a call of a run, which goes on unless the call is its end.
    fn make_running(&mut self, mut course: Course, call: Call<E>) -> Result<Answer<E>, Stop> {
        let answer = match call {
            Call::End => return Ok(Answer::Done),
            Call::Remaining => Ok(Answer::ToMake(course.rest.len() as u64)),
            Call::Step { count } => self.step(&mut course, count),
            _ => Ok(Answer::NotOffered),
        };
        self.course = Some(course);
        answer
    }

    // Makes a call, and answers it.
    pub fn make(&mut self, call: Call<E>) -> Result<Answer<E>, AllocError> {
        let outcome = match self.course.take() {
            Some(course) => self.make_running(course, call),
            None => self.make_idle(call),
        };
        match outcome {
            Ok(answer) => Ok(answer),
            Err(Stop::Declined(refusal)) => Ok(Answer::Refused(refusal)),
            Err(Stop::Memory(error)) => Err(error),
        }
    }
}
