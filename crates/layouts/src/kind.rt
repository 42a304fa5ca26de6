// The kinds of layout, each with the number that stands for it.
ghost use Rattle.std.specs.Prelude.{◌≡◌};
ghost use Rattle.layouts.specs.Kinds.{Numbered, kind_of};

use crate::layout::Layout;
use masked::Refusal;

#[derive(Clone, Copy, PartialEq, Eq, Debug)]
pub enum LayoutKind {
    Masks = 0,
    RowStride = 1,
    ColumnStride = 2,
}

impl TryFrom<u32> for LayoutKind {
    type Error = Refusal;

    ghost try_from_gives = { Numbered };

    fn try_from(number: u32) -> Result<LayoutKind, Refusal> {
        match number {
            0 => Ok(LayoutKind::Masks),
            1 => Ok(LayoutKind::RowStride),
            2 => Ok(LayoutKind::ColumnStride),
            _ => Err(Refusal::Kind),
        }
    }
}

impl Layout {
    pub fn kind(&self) -> LayoutKind
        ensures { result ≡ kind_of self.now }
    {
        match self {
            Layout::Masks(_) => LayoutKind::Masks,
            Layout::RowStride(_) => LayoutKind::RowStride,
            Layout::ColumnStride(_) => LayoutKind::ColumnStride,
        }
    }
}
