// Named orders of small tables: every entry's cell by the positions of its bits, and owners, spans and idle cells by search.
use crate::source::LETTERS;
use layouts::Layout;
use orders::named;
use placement::{Placement, Shape, idle};
use tally::Tally;

const SIDE: u32 = 6;

// The bit of a number at a position.
fn bit(n: u32, k: u32) -> u32 {
    n.wrapping_shr(k) % 2
}

// A named order of a table.
#[derive(Clone, Copy)]
struct Order {
    letter: char,
    shape: Shape,
    inner: u32,
}

impl Order {
    // The positions of column bit k and of row bit k.
    fn positions(self, k: u32) -> (u32, u32) {
        let (low, high) = if k < self.inner {
            (k, self.inner.wrapping_add(k))
        } else {
            (k.wrapping_mul(2), k.wrapping_mul(2).wrapping_add(1))
        };
        if self.letter == 'N' {
            (high, low)
        } else {
            (low, high)
        }
    }

    // The cell of an entry, bit by bit: column bit k and row bit k each at its own position.
    fn cell(self, row: u32, column: u32) -> u32 {
        match self.letter {
            'R' => row.wrapping_mul(self.shape.columns).wrapping_add(column),
            'C' => column.wrapping_mul(self.shape.rows).wrapping_add(row),
            _ => (0..3u32)
                .map(|k| {
                    let (column_place, row_place) = self.positions(k);
                    let of_row = bit(row, k).wrapping_shl(row_place);
                    let of_column = bit(column, k).wrapping_shl(column_place);
                    of_row.wrapping_add(of_column)
                })
                .fold(0, u32::wrapping_add),
        }
    }

    // All questions on its layout.
    fn questions(self, layout: &Layout) -> Tally {
        let mut tally = Tally::new();
        let mut largest = 0u32;
        for row in 0..=SIDE {
            for column in 0..=SIDE {
                let is_inside = row < self.shape.rows && column < self.shape.columns;
                match layout.address(row, column) {
                    Ok(cell) => {
                        tally.note(is_inside && cell == self.cell(row, column));
                        largest = largest.max(cell);
                    }
                    Err(refusal) => tally.note(!is_inside && refusal.number() == 17),
                }
            }
        }
        let owners = Tally::of((0..=largest.min(100_000)).filter_map(|cell| {
            let (row, column) = layout.owner(cell)?;
            Some(self.cell(row, column) == cell)
        }));
        let entries = self.shape.rows.wrapping_mul(self.shape.columns);
        tally.note(layout.span() == largest.wrapping_add(1));
        tally.note(owners.all == u64::from(entries));
        let idle_cells = u64::from(layout.span()).wrapping_sub(owners.all);
        tally.note(u64::from(idle(layout)) == idle_cells);
        tally.and(owners)
    }

    // What comes of the order: its layout has to be made.
    fn tried(self) -> Tally {
        match named(self.letter, self.shape, self.inner) {
            Ok(layout) => self.questions(&layout),
            Err(_) => Tally::new().noting(false),
        }
    }
}

pub fn named_orders() -> Tally {
    let mut tally = Tally::new();
    for rows in 1..=SIDE {
        for columns in 1..=SIDE {
            for inner in 0..=4u32 {
                for letter in LETTERS {
                    let order = Order {
                        letter,
                        shape: Shape { rows, columns },
                        inner: if letter == 'H' { inner } else { 0 },
                    };
                    tally = tally.and(order.tried());
                }
            }
        }
    }
    tally
}
