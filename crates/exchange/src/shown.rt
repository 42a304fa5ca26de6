// What the program needs of a kind of element besides its arithmetic: how to make one, and how to write one.
use kinds::{Connection, Count, Kind, TravelTime};
use masked::Refusal;
use std::fmt;

pub trait Shown: Kind + Copy + Drop + PartialEq {
    // The entry of two zones with a direct journey of so many minutes. Where there is none, the entry is zero.
    fn direct(minutes: u32) -> Self;

    // What every cell holds before the first call, so that a cell that was written can be told from one that was not.
    fn marker() -> Self;

    // How an element other than zero is written in a table that has no room for units. It is no Display, since the kinds of
    // element are of another crate, which alone can give them one; so times and counts have the same body twice.
    fn word<W: fmt::Write>(&self, f: &mut fmt::Formatter<W>) -> fmt::Result;
}

// The marker, in minutes and as a count.
const MARKER: u32 = 7777;

// What is written where there is no path, no route or no connection.
const NONE: &str = "-";

impl Shown for TravelTime {
    fn direct(minutes: u32) -> TravelTime {
        TravelTime::new(minutes)
    }

    fn marker() -> TravelTime {
        TravelTime::new(MARKER)
    }

    fn word<W: fmt::Write>(&self, f: &mut fmt::Formatter<W>) -> fmt::Result {
        fmt::Display::fmt(&self.value, f)
    }
}

// A direct journey is one route, however long it takes.
impl Shown for Count {
    fn direct(_minutes: u32) -> Count {
        Count::new(1)
    }

    fn marker() -> Count {
        Count::new(MARKER)
    }

    fn word<W: fmt::Write>(&self, f: &mut fmt::Formatter<W>) -> fmt::Result {
        fmt::Display::fmt(&self.value, f)
    }
}

// There are two elements only. The marker is the one that no cleared entry holds.
impl Shown for Connection {
    fn direct(_minutes: u32) -> Connection {
        Connection::new(true)
    }

    fn marker() -> Connection {
        Connection::new(true)
    }

    fn word<W: fmt::Write>(&self, f: &mut fmt::Formatter<W>) -> fmt::Result {
        f.pad("yes")
    }
}

// An element as it is printed.
#[derive(Drop)]
pub struct Written<E>(pub E);

impl<E: Shown> fmt::Display for Written<E> {
    fn fmt<W: fmt::Write>(&self, f: &mut fmt::Formatter<W>) -> fmt::Result {
        if self.0 == E::zero() {
            f.pad(NONE)
        } else {
            self.0.word(f)
        }
    }
}

// The answer to a question for an entry as it is printed.
#[derive(Drop)]
pub struct Found<E>(pub Result<E, Refusal>);

impl<E: Shown> fmt::Display for Found<E> {
    fn fmt<W: fmt::Write>(&self, f: &mut fmt::Formatter<W>) -> fmt::Result {
        match self.0 {
            Ok(element) => fmt::Display::fmt(&Written(element), f),
            Err(_) => f.pad("refused"),
        }
    }
}
