// Elements of every kind for a trial.
use crate::source::Source;
use draws::Draws;
use kinds::{Connection, Count, Kind, TravelTime};
use std::alloc::AllocError;

// How a trial makes an element of any number. The trait of `trials` makes other travel times, and a type has one impl of a
// trait.
pub trait Sample: Kind + Copy + Drop + PartialEq {
    fn sample(n: u32) -> Self;
}

impl Sample for Count {
    fn sample(n: u32) -> Count {
        Count::new(n)
    }
}

// One journey in four has no path, and one in four is so long that a sum of two comes to no path.
impl Sample for TravelTime {
    fn sample(n: u32) -> TravelTime {
        match n % 4 {
            0 => TravelTime::zero(),
            1 => TravelTime::new(n | 0xf000_0000),
            _ => TravelTime::new(n % 1000),
        }
    }
}

impl Sample for Connection {
    fn sample(n: u32) -> Connection {
        Connection::new(n % 4 == 0)
    }
}

// A list of random elements.
pub fn samples<E: Sample>(source: &mut Source, length: u32) -> Result<Vec<E>, AllocError> {
    let mut list = Vec::new(source.heap);
    list.resize_with(length as usize, || E::sample(source.next()))?;
    Ok(list)
}
