// Tables in stores, over placements of all sorts.
use crate::grid::Grid;
use crate::lists::Told;
use crate::model::Model;
use crate::sample::{Sample, samples};
use crate::source::Source;
use crate::three::{TABLES, Three};
use calls::{Call, Table};
use draws::Draws;
use layouts::Layout;
use makers::{from_column_stride, from_row_stride};
use masked::Refusal;
use orders::named;
use placement::{Placement, Shape};
use promise::{Outcomes, replay_both};
use std::alloc::{AllocError, Global};
use trio::Idle;

// The sorts of placement: the five named orders, and strides longer than the side.
#[derive(Clone, Copy, PartialEq, Eq, Debug)]
pub enum Sort {
    Rows,
    Columns,
    Zigzag,
    Slanted,
    Blocks,
    RowStride,
    ColumnStride,
}

impl Sort {
    const ALL: [Sort; 7] = [
        Sort::Rows,
        Sort::Columns,
        Sort::Zigzag,
        Sort::Slanted,
        Sort::Blocks,
        Sort::RowStride,
        Sort::ColumnStride,
    ];

    pub fn random(source: &mut Source) -> Sort {
        source.one_of(&Sort::ALL)
    }

    // Another sort than this one.
    pub fn other(self, source: &mut Source) -> Sort {
        let more = source.below(6) as usize + 1;
        Sort::ALL[(self as usize + more) % Sort::ALL.len()]
    }

    // A placement of the sort.
    fn layout(self, source: &mut Source, shape: Shape) -> Result<Layout, Refusal> {
        let more = source.up_to(3);
        match self {
            Sort::Rows => named('R', shape, 0),
            Sort::Columns => named('C', shape, 0),
            Sort::Zigzag => named('Z', shape, 0),
            Sort::Slanted => named('N', shape, 0),
            Sort::Blocks => named('H', shape, more),
            Sort::RowStride => from_row_stride(shape, shape.columns.saturating_add(more)),
            Sort::ColumnStride => from_column_stride(shape, shape.rows.saturating_add(more)),
        }
    }
}

// Placements of the given sorts for three tables.
pub fn layouts_of(
    source: &mut Source,
    sorts: &Three<Sort>,
    shapes: &Three<Shape>,
) -> Result<Three<Layout>, Refusal> {
    Three::try_each(|table| sorts.of(table).layout(source, *shapes.of(table)))
}

// A table of a trio in its store, with all cells that no entry owns as they were before the first call.
#[derive(Drop)]
struct Stored<E> {
    table: Table,
    layout: Layout,
    store: Vec<E>,
    idle: Vec<(u32, E)>,
}

// The length of a store: some cells more than the span, or one less.
fn random_length(source: &mut Source, layout: &Layout, is_short: bool) -> u32 {
    if is_short {
        layout.span().saturating_sub(1)
    } else {
        layout.span().saturating_add(source.below(4))
    }
}

// Writes all entries of a table into a store, as far as it goes.
fn write_entries<E: Sample>(layout: &Layout, store: &mut [E], grid: &Grid<E>) {
    let shape = layout.shape();
    for row in 0..shape.rows {
        for column in 0..shape.columns {
            if let Ok(cell) = layout.address(row, column)
                && let Some(place) = store.get_mut(cell as usize)
            {
                *place = grid.or_zero(row, column);
            }
        }
    }
}

impl<E: Sample> Stored<E> {
    // A table of the model in a store. All other cells hold something too.
    fn new(
        source: &mut Source,
        layout: Layout,
        is_short: bool,
        model: &Model<E>,
        table: Table,
    ) -> Result<Stored<E>, AllocError> {
        let length = random_length(source, &layout, is_short);
        let mut store: Vec<E> = samples(source, length)?;
        write_entries(&layout, store.as_mut_slice(), model.table(table));
        let idle = (0..length)
            .zip(store.iter().copied())
            .filter(|(cell, _)| layout.owner(*cell).is_none())
            .collect(source.heap)?;
        Ok(Stored {
            table,
            layout,
            store,
            idle,
        })
    }

    // Whether an entry is the model's. A store that is too short may lack it.
    fn has_entry(&self, model: &Model<E>, row: u32, column: u32) -> bool {
        let Ok(cell) = self.layout.address(row, column) else {
            return false;
        };
        match self.store.get(cell as usize) {
            Some(entry) => *entry == model.table(self.table).or_zero(row, column),
            None => !model.is_stored(),
        }
    }

    // Whether all entries are the model's.
    fn has_entries(&self, model: &Model<E>) -> bool {
        let shape = self.layout.shape();
        let has_row = |row| (0..shape.columns).all(|column| self.has_entry(model, row, column));
        shape == model.table(self.table).shape() && (0..shape.rows).all(has_row)
    }

    // Whether all cells that no entry owns are as they were.
    fn keeps_idle_cells(&self) -> bool {
        self.idle
            .iter()
            .all(|(cell, old)| self.store.get(*cell as usize) == Some(old))
    }

    // Whether all entries are the model's, and all other cells as they were.
    fn agrees(&self, model: &Model<E>) -> bool {
        self.has_entries(model) && self.keeps_idle_cells()
    }
}

// The three tables of a trio in their stores.
#[derive(Drop)]
pub struct Side<E> {
    tables: Three<Stored<E>>,
}

impl<E: Sample> Side<E> {
    // The tables of the model over three placements. The store of one of them may be too short.
    pub fn new(
        source: &mut Source,
        layouts: &Three<Layout>,
        short: Option<Table>,
        model: &Model<E>,
    ) -> Result<Side<E>, AllocError> {
        let tables = Three::try_each(|table| {
            let is_short = short == Some(table);
            Stored::new(source, *layouts.of(table), is_short, model, table)
        })?;
        Ok(Side { tables })
    }

    // The tables as a trio.
    fn trio(&self) -> Idle<Layout, Layout, Layout> {
        let Three {
            left,
            right,
            result,
        } = &self.tables;
        Idle::open(left.layout, right.layout, result.layout)
    }

    // Whether all three tables agree with the model.
    pub fn agrees(&self, model: &Model<E>) -> bool {
        TABLES
            .iter()
            .all(|table| self.tables.of(*table).agrees(model))
    }
}

// Makes a list of calls on two trios.
pub fn replayed<E: Sample>(
    heap: Global,
    first: &mut Side<E>,
    second: &mut Side<E>,
    script: &[Told<E>],
) -> Result<Outcomes<Layout, Layout, Layout, Layout, Layout, Layout, E>, AllocError> {
    let calls: Vec<Call<E>> = script.iter().map(|told| told.call).collect(heap)?;
    replay_both(
        heap,
        first.trio(),
        first.tables.left.store.as_mut_slice(),
        first.tables.right.store.as_mut_slice(),
        first.tables.result.store.as_mut_slice(),
        second.trio(),
        second.tables.left.store.as_mut_slice(),
        second.tables.right.store.as_mut_slice(),
        second.tables.result.store.as_mut_slice(),
        calls.as_slice(),
    )
}
