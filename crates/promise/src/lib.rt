// Lists of calls as values, their replay on a trio, and the promise that holds of every one.
#![tactic(auto)]

mod both;
mod making;
mod replaying;
mod state;

pub use both::{Outcomes, replay_both};
pub use calls::{Answer, Call};
pub use replaying::{Outcome, replay};
pub use state::State;

#[cfg(test)]
mod tests {
    use super::*;
    use kinds::{Kind, TravelTime};
    use orders::named;
    use placement::Shape;
    use std::test::Fail;
    use trio::Idle;

    // A journey of 3 and then 4, or one without a path and then 5.
    #[test]
    fn best_time(rt: HostRuntime) -> Result<(), Fail> {
        let left = named(
            'Z',
            Shape {
                rows: 1,
                columns: 2,
            },
            0,
        )?;
        let right = named(
            'R',
            Shape {
                rows: 2,
                columns: 1,
            },
            0,
        )?;
        let result = named(
            'C',
            Shape {
                rows: 1,
                columns: 1,
            },
            0,
        )?;
        let mut lefts = [TravelTime::new(3), TravelTime::zero()];
        let mut rights = [TravelTime::new(4), TravelTime::new(5)];
        let mut results = [TravelTime::zero()];
        let calls = [
            Call::Begin { order: 0 },
            Call::Step { count: 9 },
            Call::Clear { table: 2 },
            Call::End,
            Call::Get {
                table: 2,
                row: 0,
                column: 0,
            },
        ];
        let trio = Idle::open(left, right, result);
        let outcome = replay(
            rt.alloc(),
            trio,
            &mut lefts,
            &mut rights,
            &mut results,
            &calls,
        )?;
        assert_eq!(rt; outcome.answers.get(1).copied(), Some(Answer::Made(2)));
        let best = Answer::Entry(TravelTime::new(7));
        assert_eq!(rt; outcome.answers.get(4).copied(), Some(best));
        Ok(())
    }
}
