// A table as a plain list of its rows. The shape stands beside them: the lists have their lengths as usize, the trio asks in
// u32, and a table with no row would not say how many columns it has.
use crate::sample::{Sample, samples};
use crate::source::Source;
use placement::Shape;
use std::alloc::AllocError;

#[derive(Drop)]
pub struct Grid<E> {
    shape: Shape,
    rows: Vec<Vec<E>>,
}

impl<E: Sample> Grid<E> {
    // A table of random entries.
    pub fn random(source: &mut Source, shape: Shape) -> Result<Grid<E>, AllocError> {
        let mut rows = Vec::new(source.heap);
        rows.try_resize_with(shape.rows as usize, || samples(source, shape.columns))?;
        Ok(Grid { shape, rows })
    }

    // How many rows and columns.
    pub fn shape(&self) -> Shape {
        self.shape
    }

    // The entry, or none where the row or the column lies outside.
    pub fn entry(&self, row: u32, column: u32) -> Option<E> {
        self.rows.get(row as usize)?.get(column as usize).copied()
    }

    // The place of the entry, or none where the row or the column lies outside.
    pub fn entry_mut(&mut self, row: u32, column: u32) -> Option<&mut E> {
        self.rows.get_mut(row as usize)?.get_mut(column as usize)
    }

    // The entry, or zero where there is none.
    pub fn or_zero(&self, row: u32, column: u32) -> E {
        self.entry(row, column).unwrap_or(E::zero())
    }

    // Makes all entries zero. It is no `fill`, which asks for a clone that cannot fail; a bound of Copy does not say that.
    pub fn clear(&mut self) {
        let zero = E::zero();
        for row in self.rows.iter_mut() {
            row.fill_with(|| zero);
        }
    }
}
