// Masks as a placement.
ghost use Rattle.by_masks.specs.Layouts.{masks_plan};
ghost use Rattle.plans.specs.Plans.{site_of};
ghost use Rattle.plans.proofs.MaskLaws.{lawful_masks};
ghost use Rattle.by_masks.specs.Fits.{masks_fit};

use crate::masks::Masks;
use crate::parts::{index_of, part};
use masked::Refusal;
use placement::{Placement, Shape};

impl Placement for Masks {
    ghost site = { λ m. site_of (masks_plan m) };

    ghost lawful = { λ m. lawful_masks _ _ _ _ (masks_fit m) };

    fn shape(&self) -> Shape {
        self.shape
    }

    fn span(&self) -> u32 {
        let row_part = part(self.shape.rows - 1, self.row_mask);
        let column_part = part(self.shape.columns - 1, self.column_mask);
        row_part + column_part + 1
    }

    // Two comparisons, here as in `by_strides`: a method that makes them would be no plainer.
    fn address(&self, row: u32, column: u32) -> Result<u32, Refusal> {
        if row >= self.shape.rows || column >= self.shape.columns {
            return Err(Refusal::Outside);
        }
        let row_part = part(row, self.row_mask);
        let column_part = part(column, self.column_mask);
        Ok(row_part + column_part)
    }

    fn owner(&self, cell: u32) -> Option<(u32, u32)> {
        let row_part = cell & self.row_mask;
        let column_part = cell & self.column_mask;
        if row_part + column_part != cell {
            return None;
        }
        let row = index_of(row_part, self.row_mask);
        let column = index_of(column_part, self.column_mask);
        if row < self.shape.rows && column < self.shape.columns {
            Some((row, column))
        } else {
            None
        }
    }
}
