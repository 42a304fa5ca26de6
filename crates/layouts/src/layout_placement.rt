// A layout as a placement: the one that was chosen. Each method asks it by a `match` of its own: the three differ in type,
// and no one value stands for any of them, since a `dyn Placement` may not be handed out.
ghost use Rattle.layouts.specs.Layouts.{layout_plan};
ghost use Rattle.plans.specs.Plans.{site_of};
ghost use Rattle.layouts.specs.Legals.{lawful_layout};

use crate::layout::Layout;
use masked::Refusal;
use placement::{Placement, Shape};

impl Placement for Layout {
    ghost site = { λ l. site_of (layout_plan l) };

    ghost lawful = { λ l. lawful_layout l };

    fn shape(&self) -> Shape {
        match self {
            Layout::Masks(p) => p.shape(),
            Layout::RowStride(p) => p.shape(),
            Layout::ColumnStride(p) => p.shape(),
        }
    }

    fn span(&self) -> u32 {
        match self {
            Layout::Masks(p) => p.span(),
            Layout::RowStride(p) => p.span(),
            Layout::ColumnStride(p) => p.span(),
        }
    }

    fn address(&self, row: u32, column: u32) -> Result<u32, Refusal> {
        match self {
            Layout::Masks(p) => p.address(row, column),
            Layout::RowStride(p) => p.address(row, column),
            Layout::ColumnStride(p) => p.address(row, column),
        }
    }

    fn owner(&self, cell: u32) -> Option<(u32, u32)> {
        match self {
            Layout::Masks(p) => p.owner(cell),
            Layout::RowStride(p) => p.owner(cell),
            Layout::ColumnStride(p) => p.owner(cell),
        }
    }
}
