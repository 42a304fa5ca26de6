// Strides: the numbers of a placement by lines that begin a fixed number of cells apart. The ghost field is what makes it
// legal, so that every value of the type is a placement.
ghost use Rattle.std.specs.Prelude.{◌≡◌, ⊤};
ghost use Rattle.plans.specs.Plans.{LinesFit};

use crate::axis::{Axis, ByColumns, ByRows};
use placement::Shape;
use std::alloc::AllocError;
use std::marker::PhantomData;

pub struct Strides<A: Axis> {
    pub shape: Shape,
    pub stride: u32,
    pub axis: PhantomData<A>,
    pub ghost legal: { LinesFit A.turns shape.rows shape.columns stride },
}

// By hand here and below, since a derive is refused over a ghost field for a type with a parameter.
impl<A: Axis> Copy for Strides<A> {}

impl<A: Axis> Clone for Strides<A> {
    ghost is_clone = { λ p q. q ≡ p };

    ghost is_infallible = { λ _. ⊤ };

    fn clone(&self) -> Result<Self, AllocError> {
        Ok(*self)
    }
}

// Each row begins a stride after the row before it.
pub type RowStride = Strides<ByRows>;

// Each column begins a stride after the column before it.
pub type ColumnStride = Strides<ByColumns>;
