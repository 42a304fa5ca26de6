// The reader.
ghost use Rattle.std.specs.Prelude.{◌≡◌};
ghost use Rattle.layouts.specs.Layouts.{layout_plan};
ghost use Rattle.decoding.specs.Laws.{Bounded, ExchangeLaw};
ghost use Rattle.decoding.specs.Reading.{planned, unless, number_at, kind_at, side_at, mask_at, column_mask_at, stride_at, ended, masks_at, strides_at, accepted};
ghost use Rattle.reader.specs.Parts.{onward, numbered, sided};

use crate::extent::Extent;
use decoding::{Fault, number_at};
use layouts::{Axis, ByColumns, ByRows, Layout, LayoutAxis, LayoutKind, Masks};
use masked::{Refusal, width};
use placement::Shape;

// What is left of an input from an offset on. Each number is read at its head, and comes with the rest that follows it.
#[derive(Clone, Copy)]
struct Rest<'a> {
    input: &'a [u8],
    at: usize,
}

impl<'a> Rest<'a> {
    // The refusal of the number at the head, unless the condition holds.
    fn require(self, holds: bool, refusal: Refusal) -> Result<(), Fault>
        ensures { result ≡ unless holds refusal self.entry.at (Ok tt) }
    {
        if holds {
            Ok(())
        } else {
            Err(Fault::new(refusal, self.at))
        }
    }

    fn number(self) -> Result<(u32, Self), Fault>
        ensures { result ≡ onward self.entry (number_at self.entry.input.now self.entry.at) }
    {
        let number = number_at(self.input, self.at)?;
        let rest = Rest {
            at: number.next,
            ..self
        };
        Ok((number.value, rest))
    }

    fn kind(self) -> Result<(LayoutKind, Self), Fault>
        ensures { numbered result ≡ onward self.entry (kind_at self.entry.input.now self.entry.at) }
    {
        let (number, rest) = self.number()?;
        let kind = LayoutKind::try_from(number).map_err(|refusal| Fault::new(refusal, self.at))?;
        Ok((kind, rest))
    }

    // How many rows, or how many columns. The number is one less.
    fn side(self) -> Result<(Extent, Self), Fault>
        ensures { sided result ≡ onward self.entry (side_at self.entry.input.now self.entry.at) }
    {
        let (last, rest) = self.number()?;
        self.require(last <= 4095, Refusal::Shape)?;
        let side = Extent { entries: last + 1 };
        Ok((side, rest))
    }

    // The mask of a side with that many entries.
    fn mask(self, side: Extent) -> Result<(u32, Self), Fault>
        ensures { result ≡ onward self.entry (mask_at self.entry.input.now self.entry.at side.entries) }
    {
        let (mask, rest) = self.number()?;
        self.require(
            mask.count_ones() == width(side.entries - 1),
            Refusal::MaskBits,
        )?;
        self.require(mask < 1 << 24, Refusal::MaskPosition)?;
        Ok((mask, rest))
    }

    // The column mask, which shares no bit with the row mask.
    fn column_mask(self, columns: Extent, row_mask: u32) -> Result<(u32, Self), Fault>
        ensures { result ≡ onward self.entry (column_mask_at self.entry.input.now self.entry.at columns.entries row_mask) }
    {
        let (mask, rest) = self.mask(columns)?;
        self.require(row_mask & mask == 0, Refusal::MaskOverlap)?;
        Ok((mask, rest))
    }

    // The stride between the entries of one side, with the entries of the other in between.
    fn stride(self, near: u32, strided: u32) -> Result<(u32, Self), Fault>
        ensures { result ≡ onward self.entry (stride_at self.entry.input.now self.entry.at near strided) }
    {
        let (stride, rest) = self.number()?;
        self.require((near..=4095).contains(&stride), Refusal::Stride)?;
        self.require(
            !stride.is_power_of_two() && strided != 1,
            Refusal::Uncanonical,
        )?;
        Ok((stride, rest))
    }

    // The layout, where the input ends with it.
    fn whole(self, layout: Layout) -> Result<Layout, Fault>
        ensures { planned result ≡ ended self.entry.input.now self.entry.at (layout_plan layout) }
    {
        self.require(self.at >= self.input.len(), Refusal::Trailing)?;
        Ok(layout)
    }

    fn masks(self, rows: Extent, columns: Extent) -> Result<Layout, Fault>
        ensures { planned result ≡ masks_at self.entry.input.now self.entry.at rows.entries columns.entries }
    {
        let (row_mask, rest) = self.mask(rows)?;
        let (column_mask, rest) = rest.column_mask(columns, row_mask)?;
        let masks = Masks {
            shape: shape(rows, columns),
            row_mask,
            column_mask,
        };
        rest.whole(Layout::Masks(masks))
    }

    fn strides<A: LayoutAxis>(self, rows: Extent, columns: Extent) -> Result<Layout, Fault>
        ensures { planned result ≡ strides_at A.turns self.entry.input.now self.entry.at rows.entries columns.entries }
    {
        let (lines, places) = A::turned(rows.entries, columns.entries);
        let (stride, rest) = self.stride(places, lines)?;
        let layout = A::layout(shape(rows, columns), stride);
        rest.whole(layout)
    }
}

fn shape(rows: Extent, columns: Extent) -> Shape
    ensures rows { result.rows ≡ rows.entries }
    ensures columns { result.columns ≡ columns.entries }
{
    Shape {
        rows: rows.entries,
        columns: columns.entries,
    }
}

// The layout that the input describes. The whole input has to be the descriptor. Each number is checked before the next is
// read, so that the first fault is told, and no more than thirteen bytes are read of any input.
#[tactic(auto, using(decoding::proofs::OneForm::exchange_law, decoding::proofs::Bounded::bounded))]
pub fn read(input: &[u8]) -> Result<Layout, Fault>
    ensures answer { planned result ≡ accepted input.now }
    ensures exchange { ExchangeLaw }
    ensures bounded { Bounded }
{
    let (kind, rest) = Rest { input, at: 0 }.kind()?;
    let (rows, rest) = rest.side()?;
    let (columns, rest) = rest.side()?;
    match kind {
        LayoutKind::Masks => rest.masks(rows, columns),
        LayoutKind::RowStride => rest.strides::<ByRows>(rows, columns),
        LayoutKind::ColumnStride => rest.strides::<ByColumns>(rows, columns),
    }
}
