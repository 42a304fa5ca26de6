// What a group of trials came to.
use calls::{Answer, Call};
use masked::Refusal;
use std::fmt;
use tally::Tally;

// How many calls of each sort were made.
#[derive(Clone, Copy, Default)]
struct Made {
    puts: u64,
    gets: u64,
    clears: u64,
    copies: u64,
    turned: u64,
    begins: u64,
    steps: u64,
    asked: u64,
    ends: u64,
}

impl Made {
    // The number to which a call belongs.
    fn counter<E>(&mut self, call: &Call<E>) -> &mut u64 {
        match call {
            Call::Put { .. } => &mut self.puts,
            Call::Get { .. } => &mut self.gets,
            Call::Clear { .. } => &mut self.clears,
            Call::Copy {
                transposed: true,
                ..
            } => &mut self.turned,
            Call::Copy { .. } => &mut self.copies,
            Call::Begin { .. } => &mut self.begins,
            Call::Step { .. } => &mut self.steps,
            Call::Remaining => &mut self.asked,
            Call::End => &mut self.ends,
        }
    }
}

impl fmt::Display for Made {
    fn fmt<W: fmt::Write>(&self, f: &mut fmt::Formatter<W>) -> fmt::Result {
        let Made {
            puts,
            gets,
            clears,
            copies,
            turned,
            begins,
            steps,
            asked,
            ends,
        } = *self;
        write!(
            f,
            "put {puts}, get {gets}, clear {clears}, copy {copies}, transposed {turned}, "
        )?;
        write!(
            f,
            "begin {begins}, step {steps}, remaining {asked}, end {ends}"
        )
    }
}

// How many calls were declined, and why.
#[derive(Clone, Copy, Default)]
struct Declined {
    tables: u64,
    stores: u64,
    places: u64,
    shapes: u64,
    orders: u64,
    others: u64,
    not_offered: u64,
}

impl Declined {
    // The number to which a refusal belongs. No call is declined for another reason, so those are not printed.
    fn counter(&mut self, refusal: Refusal) -> &mut u64 {
        match refusal {
            Refusal::Table => &mut self.tables,
            Refusal::Store => &mut self.stores,
            Refusal::Outside => &mut self.places,
            Refusal::Mismatch => &mut self.shapes,
            Refusal::TileOrder => &mut self.orders,
            _ => &mut self.others,
        }
    }
}

impl fmt::Display for Declined {
    fn fmt<W: fmt::Write>(&self, f: &mut fmt::Formatter<W>) -> fmt::Result {
        let Declined {
            tables,
            stores,
            places,
            shapes,
            orders,
            others: _,
            not_offered,
        } = *self;
        write!(
            f,
            "15 {tables}, 16 {stores}, 17 {places}, 18 {shapes}, 19 {orders}; "
        )?;
        write!(f, "not offered: {not_offered}")
    }
}

// Counts one thing more.
fn count(counter: &mut u64) {
    *counter = counter.saturating_add(1);
}

// How many lists were tried and how many agreed, the first round that did not, and what their calls were told.
#[derive(Clone, Copy)]
pub struct Report {
    seed: u64,
    lists: Tally,
    first_difference: Option<u32>,
    made: Made,
    declined: Declined,
    finished: u64,
}

impl Report {
    // Nothing tried yet of the rounds of a seed.
    pub fn new(seed: u64) -> Report {
        Report {
            seed,
            lists: Tally::new(),
            first_difference: None,
            made: Made::default(),
            declined: Declined::default(),
            finished: 0,
        }
    }

    // Counts a round.
    pub fn note_round(&mut self, round: u32, is_same: bool) {
        self.lists.note(is_same);
        if !is_same {
            self.first_difference = self.first_difference.or(Some(round));
        }
    }

    // Counts a call by its answer.
    pub fn note_call<E>(&mut self, call: &Call<E>, answer: &Answer<E>) {
        count(match answer {
            Answer::Refused(refusal) => self.declined.counter(*refusal),
            Answer::NotOffered => &mut self.declined.not_offered,
            _ => self.made.counter(call),
        });
    }

    // Counts runs that were finished.
    pub fn note_finished(&mut self, runs: u64) {
        self.finished = self.finished.saturating_add(runs);
    }
}

impl fmt::Display for Report {
    fn fmt<W: fmt::Write>(&self, f: &mut fmt::Formatter<W>) -> fmt::Result {
        let Report {
            seed,
            lists,
            first_difference,
            made,
            declined,
            finished,
        } = *self;
        writeln!(f, "{lists} agree")?;
        if let Some(round) = first_difference {
            writeln!(f, "  the first that differs: seed {seed}, round {round}")?;
        }
        writeln!(f, "  made: {made}; runs finished: {finished}")?;
        write!(f, "  refused: {declined}")
    }
}
