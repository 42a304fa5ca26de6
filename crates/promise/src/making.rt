// One call, made through the calls of an idle trio or a run.
ghost use Rattle.std.specs.Prelude.{◌≡◌};
ghost use Rattle.calls.specs.Moments.{Called, moment, opened};
ghost use Rattle.calls.specs.Views.{told as told_of, get_answer, step_answer};
ghost use Rattle.trio.specs.Trios.{idle_trio, run_trio, run_mode};
ghost use Rattle.promise.specs.Replays.{state_trio, state_mode};

use crate::state::State;
use calls::{Answer, Call};
use kinds::Kind;
use masked::Refusal;
use placement::Placement;
use trio::{Declined, Idle, Run};

// Three functions and no `map_or_else`, neither with a closure, as `|_| Answer::Done`, nor with a case, as `Answer::Made`: the
// borrow checker covers no call of it that passes a function whose answer alone names E.

// The answer of a call that has nothing to tell.
fn told<E>(outcome: Result<(), Refusal>) -> Answer<E>
    ensures { result ≡ told_of outcome }
{
    match outcome {
        Ok(()) => Answer::Done,
        Err(refusal) => Answer::Refused(refusal),
    }
}

// The answer of a get.
fn got<E>(outcome: Result<E, Refusal>) -> Answer<E>
    ensures { result ≡ get_answer outcome }
{
    match outcome {
        Ok(entry) => Answer::Entry(entry),
        Err(refusal) => Answer::Refused(refusal),
    }
}

// The answer of a step.
fn stepped<E>(outcome: Result<u64, Refusal>) -> Answer<E>
    ensures { result ≡ step_answer outcome }
{
    match outcome {
        Ok(made) => Answer::Made(made),
        Err(refusal) => Answer::Refused(refusal),
    }
}

// Makes a call of an idle trio, or says that it has no such call.
fn make_resting<L: Placement, R: Placement, S: Placement, E: Kind + Copy>(
    resting: Idle<L, R, S>,
    lefts: &mut [E],
    rights: &mut [E],
    results: &mut [E],
    call: Call<E>,
) -> (State<L, R, S>, Answer<E>)
    ensures made { Called E.Kind (idle_trio L.Placement R.Placement S.Placement resting) (opened lefts.old rights.old results.old) call result.1 (moment lefts.new rights.new results.new (state_mode result.0)) }
    ensures tables { state_trio L.Placement R.Placement S.Placement result.0 ≡ idle_trio L.Placement R.Placement S.Placement resting }
{
    match call {
        Call::Put {
            table,
            row,
            column,
            value,
        } => {
            let answer = told(resting.put(lefts, rights, results, table, row, column, value));
            (State::Resting(resting), answer)
        }
        Call::Get { table, row, column } => {
            let answer = got(resting.get(lefts, rights, results, table, row, column));
            (State::Resting(resting), answer)
        }
        Call::Clear { table } => {
            let answer = told(resting.clear(lefts, rights, results, table));
            (State::Resting(resting), answer)
        }
        Call::Copy {
            to,
            from,
            transposed,
        } => {
            let answer = told(resting.copy(lefts, rights, results, to, from, transposed));
            (State::Resting(resting), answer)
        }
        Call::Begin { order } => match resting.begin(order) {
            Ok(run) => (State::Running(run), Answer::Done),
            Err(Declined { idle, refusal }) => (State::Resting(idle), Answer::Refused(refusal)),
        },
        Call::Step { .. } | Call::Remaining | Call::End => (
            State::Resting(resting),
            Answer::NotOffered,
        ),
    }
}

// Makes a call of a run, or says that it has no such call.
fn make_running<L: Placement, R: Placement, S: Placement, E: Kind + Copy>(
    mut running: Run<L, R, S>,
    lefts: &mut [E],
    rights: &mut [E],
    results: &mut [E],
    call: Call<E>,
) -> (State<L, R, S>, Answer<E>)
    ensures made { Called E.Kind (run_trio L.Placement R.Placement S.Placement running) (moment lefts.old rights.old results.old (run_mode running)) call result.1 (moment lefts.new rights.new results.new (state_mode result.0)) }
    ensures tables { state_trio L.Placement R.Placement S.Placement result.0 ≡ run_trio L.Placement R.Placement S.Placement running }
{
    match call {
        Call::Step { count } => {
            let answer = stepped(running.step(lefts, rights, results, count));
            (State::Running(running), answer)
        }
        Call::Remaining => {
            let answer = Answer::ToMake(running.remaining());
            (State::Running(running), answer)
        }
        Call::End => (State::Resting(running.end()), Answer::Done),
        _ => (State::Running(running), Answer::NotOffered),
    }
}

// Makes a call of a trio in whichever state it is.
pub(crate) fn make<L: Placement, R: Placement, S: Placement, E: Kind + Copy>(
    state: State<L, R, S>,
    lefts: &mut [E],
    rights: &mut [E],
    results: &mut [E],
    call: Call<E>,
) -> (State<L, R, S>, Answer<E>)
    ensures made { Called E.Kind (state_trio L.Placement R.Placement S.Placement state) (moment lefts.old rights.old results.old (state_mode state)) call result.1 (moment lefts.new rights.new results.new (state_mode result.0)) }
    ensures tables { state_trio L.Placement R.Placement S.Placement result.0 ≡ state_trio L.Placement R.Placement S.Placement state }
{
    match state {
        State::Resting(resting) => make_resting(resting, lefts, rights, results, call),
        State::Running(running) => make_running(running, lefts, rights, results, call),
    }
}
