// Finished products against the plain triple loop, over every kind, several placements and tile orders.
use crate::source::{LETTERS, Source};
use draws::Draws;
use kinds::{Connection, Count, Kind, TravelTime};
use layouts::Layout;
use masked::Refusal;
use orders::named;
use placement::{Placement, Shape};
use product::{Held, tile_product};
use std::alloc::{AllocError, Global};
use tally::Tally;
use walk::{Sizes, count, triple_at};

// How a trial makes an element of any number. `call_trials` has a trait of its own: it makes other travel times of a number,
// a type has one impl of a trait, and with one trait the trials of one of the two would try other tables.
pub trait Sample: Kind + Copy + Drop + PartialEq {
    fn sample(n: u32) -> Self;
}

impl Sample for Count {
    fn sample(n: u32) -> Count {
        Count::new(n)
    }
}

// Every third journey has no path.
impl Sample for TravelTime {
    fn sample(n: u32) -> TravelTime {
        if n % 3 == 0 {
            TravelTime::zero()
        } else {
            TravelTime::new(n % 1000)
        }
    }
}

impl Sample for Connection {
    fn sample(n: u32) -> Connection {
        Connection::new(n % 4 == 0)
    }
}

// A table: its layout, and a store with some cells past the span.
#[derive(Drop)]
struct Stored<E> {
    layout: Layout,
    store: Vec<E>,
}

impl<E: Sample> Stored<E> {
    // A table with all cells filled.
    fn random(source: &mut Source, layout: Layout) -> Result<Stored<E>, AllocError> {
        let mut store = Vec::new(source.heap);
        let cells = layout.span().saturating_add(source.below(4)) as usize;
        store.resize_with(cells, || E::sample(source.next()))?;
        Ok(Stored { layout, store })
    }

    // The entry of the table, or zero where there is none.
    fn entry(&self, row: u32, column: u32) -> E {
        self.layout
            .address(row, column)
            .ok()
            .and_then(|cell| self.store.get(cell as usize).copied())
            .unwrap_or(E::zero())
    }
}

// Makes all tile products of the reflected walk, and says whether the tables fit together for it.
fn multiply<E: Sample>(
    left: &Stored<E>,
    right: &Stored<E>,
    target: &Layout,
    results: &mut [E],
    order: u32,
) -> bool {
    let Shape { rows, columns } = target.shape();
    let middle = left.layout.shape().columns;
    let is_fitting = left.layout.shape().rows == rows
        && right.layout.shape().rows == middle
        && right.layout.shape().columns == columns;
    let is_stored = left.layout.span() as usize <= left.store.len()
        && right.layout.span() as usize <= right.store.len()
        && target.span() as usize <= results.len();
    if !is_fitting || !is_stored || order > 12 {
        return false;
    }
    let sizes = Sizes {
        rows,
        columns,
        middle,
        order,
    };
    let left = Held::new(&left.layout, left.store.as_slice());
    let right = Held::new(&right.layout, right.store.as_slice());
    for n in 0..count(sizes) {
        if let Some(triple) = triple_at(sizes, n) {
            tile_product(left, right, target, results, sizes, triple);
        }
    }
    true
}

// The old value plus the full sum, the terms taken from the last to the first.
fn full_sum<E: Sample>(left: &Stored<E>, right: &Stored<E>, row: u32, column: u32, old: E) -> E {
    let sum = (0..left.layout.shape().columns)
        .rev()
        .map(|k| left.entry(row, k).times(right.entry(k, column)))
        .fold(E::zero(), E::plus);
    old.plus(sum)
}

fn random_layout(source: &mut Source, rows: u32, columns: u32) -> Result<Layout, Refusal> {
    let letter = source.one_of(&LETTERS);
    let inner = source.inner(letter, 3);
    named(letter, Shape { rows, columns }, inner)
}

// The layouts of the tables of a product.
#[derive(Clone, Copy)]
struct Layouts {
    left: Layout,
    right: Layout,
    result: Layout,
}

// Random layouts that fit together, of sides of 1 to 6.
fn random_layouts(source: &mut Source) -> Result<Layouts, Refusal> {
    let rows = source.up_to(6);
    let columns = source.up_to(6);
    let middle = source.up_to(6);
    Ok(Layouts {
        left: random_layout(source, rows, middle)?,
        right: random_layout(source, middle, columns)?,
        result: random_layout(source, rows, columns)?,
    })
}

// One product: every cell of the result's store, idle ones too, against the plain loop.
fn one_product<E: Sample>(source: &mut Source, layouts: Layouts) -> Result<Tally, AllocError> {
    let order = source.below(4);
    let left: Stored<E> = Stored::random(source, layouts.left)?;
    let right: Stored<E> = Stored::random(source, layouts.right)?;
    let mut made: Stored<E> = Stored::random(source, layouts.result)?;
    let before = Vec::from_slice(source.heap, made.store.as_slice())?;
    let is_made = multiply(
        &left,
        &right,
        &layouts.result,
        made.store.as_mut_slice(),
        order,
    );
    let cells = (0..u32::MAX).zip(before.iter().zip(made.store.iter()));
    let mut tally = Tally::of(cells.map(|(cell, (old, new))| match layouts.result.owner(cell) {
        Some((row, column)) => *new == full_sum(&left, &right, row, column, *old),
        None => new == old,
    }));
    tally.note(is_made);
    Ok(tally)
}

// Finished products of one kind.
pub fn products_of<E: Sample>(heap: Global, seed: u64) -> Result<Tally, AllocError> {
    let mut tally = Tally::new();
    let mut source = Source::new(heap, seed);
    for _ in 0..2_000u32 {
        match random_layouts(&mut source) {
            Ok(layouts) => tally = tally.and(one_product::<E>(&mut source, layouts)?),
            Err(_) => tally.note(false),
        }
    }
    Ok(tally)
}
