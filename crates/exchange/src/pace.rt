// How a product was made: how many tile products, and in how many steps.
use crate::shown::Shown;
use calls::Answer;
use std::fmt;

#[derive(Clone, Copy)]
pub struct Pace {
    made: u64,
    steps: u32,
}

impl Pace {
    // The pace that the answers to a list of calls tell.
    pub fn of<E: Shown>(answers: &[Answer<E>]) -> Pace {
        answers
            .iter()
            .filter_map(|answer| match answer {
                Answer::Made(count) => Some(*count),
                _ => None,
            })
            .fold(Pace { made: 0, steps: 0 }, Pace::and_step)
    }

    // This pace, and a step more that made so many tile products.
    fn and_step(self, count: u64) -> Pace {
        Pace {
            made: self.made.saturating_add(count),
            steps: self.steps.saturating_add(1),
        }
    }
}

impl fmt::Display for Pace {
    fn fmt<W: fmt::Write>(&self, f: &mut fmt::Formatter<W>) -> fmt::Result {
        let Pace { made, steps } = *self;
        write!(f, "{made} (steps: {steps})")
    }
}
