// What every placement answers, and what may be relied on.
#![tactic(auto)]

ghost use Rattle.std.specs.Prelude.{◌≡◌, ◌+◌, ◌*◌};
ghost use Rattle.placement.specs.Cells.{idle_of};
ghost use Rattle.placement.specs.Sites.{Site, Lawful, Owner, address_answer};

use masked::Refusal;

// How many rows and columns a table has.
#[derive(Clone, Copy, PartialEq, Eq, Debug)]
pub struct Shape {
    pub rows: u32,
    pub columns: u32,
}

// Which cell holds which entry of a table, and nothing else.
pub trait Placement {
    ghost site: { Self → Site };

    fn shape(&self) -> Shape
        ensures rows { result.rows ≡ (site self.now).rows }
        ensures columns { result.columns ≡ (site self.now).columns };

    // One more than the largest cell of any entry: how long a store has to be.
    fn span(&self) -> u32
        ensures { result ≡ (site self.now).span };

    // The cell of an entry.
    fn address(&self, row: u32, column: u32) -> Result<u32, Refusal>
        ensures { result ≡ address_answer (site self.now) row column };

    // The row and the column whose entry lies at the cell, or none.
    fn owner(&self, cell: u32) -> Option<(u32, u32)>
        ensures { Owner (site self.now) cell result };

    ghost lawful: { (p : Self) → Lawful (site p) };
}

// How many cells below the span have no owner, told at once: no two entries have one cell, so they are what the entries
// leave of the span.
pub fn idle<P: Placement>(placement: &P) -> u32
    ensures value { result ≡ idle_of (P.site placement.now) }
    ensures total { result + (P.site placement.now).rows * (P.site placement.now).columns ≡ (P.site placement.now).span }
{
    let shape = placement.shape();
    placement.span() - shape.rows * shape.columns
}
