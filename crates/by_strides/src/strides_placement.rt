// Strides as a placement.
ghost use Rattle.plans.specs.Plans.{strided};
ghost use Rattle.plans.proofs.StrideLaws.{lawful_strided};

use crate::axis::Axis;
use crate::strides::Strides;
use masked::Refusal;
use placement::{Placement, Shape};

impl<A: Axis> Placement for Strides<A> {
    ghost site = { λ p. strided A.turns p.shape.rows p.shape.columns p.stride };

    ghost lawful = { λ p. lawful_strided A.turns _ _ _ p.legal };

    fn shape(&self) -> Shape {
        self.shape
    }

    fn span(&self) -> u32 {
        let (lines, places) = A::turned(self.shape.rows, self.shape.columns);
        self.stride * (lines - 1) + places
    }

    fn address(&self, row: u32, column: u32) -> Result<u32, Refusal> {
        if row >= self.shape.rows || column >= self.shape.columns {
            return Err(Refusal::Outside);
        }
        let (line, place) = A::turned(row, column);
        Ok(self.stride * line + place)
    }

    fn owner(&self, cell: u32) -> Option<(u32, u32)> {
        let (row, column) = A::turned(cell / self.stride, cell % self.stride);
        if row < self.shape.rows && column < self.shape.columns {
            Some((row, column))
        } else {
            None
        }
    }
}
