// Moving along rows and columns without leaving the cell numbers.
ghost use Rattle.by_masks.specs.Layouts.{masks_plan};
ghost use Rattle.by_masks.specs.Moves.{Moved};
ghost use Rattle.plans.specs.Plans.{site_of};

use crate::masks::Masks;
use crate::parts::moved_part;
use masked::Refusal;
use placement::Placement;

impl Masks {
    // The cell that lies `distance` columns to the right of a cell, in the same row.
    pub fn beside(&self, cell: u32, distance: u32) -> Result<u32, Refusal>
        ensures { Moved (site_of (masks_plan self.now)) cell 0 distance result }
    {
        self.moved(cell, 0, distance)
    }

    // The cell that lies `distance` rows beneath a cell, in the same column.
    pub fn beneath(&self, cell: u32, distance: u32) -> Result<u32, Refusal>
        ensures { Moved (site_of (masks_plan self.now)) cell distance 0 result }
    {
        self.moved(cell, distance, 0)
    }

    // The cell that lies so many rows beneath a cell and so many columns to the right.
    fn moved(&self, cell: u32, rows: u32, columns: u32) -> Result<u32, Refusal>
        ensures { Moved (site_of (masks_plan self.now)) cell rows columns result }
    {
        let (row, column) = self.owner(cell).ok_or(Refusal::Outside)?;
        if rows >= self.shape.rows - row || columns >= self.shape.columns - column {
            return Err(Refusal::Outside);
        }
        let row_part = moved_part(cell & self.row_mask, rows, self.row_mask);
        let column_part = moved_part(cell & self.column_mask, columns, self.column_mask);
        Ok(row_part + column_part)
    }
}
