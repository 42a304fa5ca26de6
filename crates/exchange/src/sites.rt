// The two sites: a timetable office and a freight router that keep the same tables, each in its own way.
use crate::failure::Failure;
use crate::network::Zone;
use crate::pace::Pace;
use crate::replies::Reply;
use crate::script;
use crate::shown::Shown;
use crate::site::{Site, make_both};
use calls::Table;
use placement::Shape;
use std::alloc::{AllocError, Global};
use tally::Tally;

// The cells from the beginning of one row of the office to that of the next: no power of two.
const STRIDE: u32 = 7;

// The router keeps blocks of 2^2 rows and columns together.
const INNER: u32 = 2;

#[derive(Drop)]
pub struct Sites<E> {
    pub office: Site<E>,
    pub router: Site<E>,
}

impl<E: Shown> Sites<E> {
    // The two sites before the first call, with the marker in every cell.
    fn new(heap: Global) -> Result<Sites<E>, Failure> {
        let shape = Shape {
            rows: Zone::COUNT,
            columns: Zone::COUNT,
        };
        let by_rows = makers::from_row_stride(shape, STRIDE)?;
        let in_blocks = orders::named('H', shape, INNER)?;
        Ok(Sites {
            office: Site::new(heap, by_rows)?,
            router: Site::new(heap, in_blocks)?,
        })
    }

    // The office fills its tables and tells the router how they lie, and the router takes them over.
    fn exchange(&mut self, heap: Global) -> Result<(), Failure> {
        let calls = script::fill(heap)?;
        let _answers = self.office.make(heap, calls.as_slice())?;
        let letter = self.office.letter()?;
        self.router.receive(&letter, &mut self.office)
    }

    // The two sites once they have exchanged the tables.
    pub fn exchanged(heap: Global) -> Result<Sites<E>, Failure> {
        let mut sites = Sites::new(heap)?;
        sites.exchange(heap)?;
        Ok(sites)
    }

    // Both make one list of calls: a whole run, with calls on the way that have to be declined.
    pub fn make_same(&mut self, heap: Global) -> Result<Vec<Reply<E>>, AllocError> {
        let questions = script::same_for_both(heap)?;
        make_both(
            heap,
            &mut self.office,
            &mut self.router,
            questions.as_slice(),
        )
    }

    // Both make the product once more, the office one tile product at a time and the router all at once.
    pub fn make_apart(&mut self, heap: Global) -> Result<(Pace, Pace), AllocError> {
        let office = self.office.make_product(heap, script::TILE_PRODUCTS, 1)?;
        let router = self.router.make_product(heap, 1, script::ALL_AT_ONCE)?;
        Ok((office, router))
    }

    // How many entries of the two results are the same.
    pub fn agreement(&self) -> Tally {
        let mut tally = Tally::new();
        for from in Zone::ALL {
            for to in Zone::ALL {
                let office = self.office.entry(Table::Result, from, to);
                let router = self.router.entry(Table::Result, from, to);
                tally.note(office.is_ok() && office == router);
            }
        }
        tally
    }
}
