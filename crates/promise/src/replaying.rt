// The replay of a list of calls on one trio.
ghost use Rattle.std.specs.Prelude.{◌≡◌, ◌≤◌, [], length, IfOk, vec_len, vec_capacity, MatchResult};
ghost use Rattle.calls.specs.Moments.{moment, opened};
ghost use Rattle.trio.specs.Trios.{idle_trio};
ghost use Rattle.promise.specs.Replays.{Replayed, state_trio, state_mode};

use crate::making::make;
use crate::state::State;
use calls::{Answer, Call};
use kinds::Kind;
use placement::Placement;
use std::alloc::{AllocError, Global};
use trio::Idle;

// What a replay gives: the trio as the calls left it, and their answers in order.
#[derive(Drop)]
pub struct Outcome<L, R, S, E> {
    pub trio: State<L, R, S>,
    pub answers: Vec<Answer<E>>,
}

// Makes the calls one after the other. There is room for all answers.
pub(crate) fn play<L: Placement, R: Placement, S: Placement, E: Kind + Copy>(
    resting: Idle<L, R, S>,
    lefts: &mut [E],
    rights: &mut [E],
    results: &mut [E],
    calls: &[Call<E>],
    room: Vec<Answer<E>>,
) -> Outcome<L, R, S, E>
    requires empty { room.items ≡ [] }
    requires none { vec_len room ≡ 0 }
    requires enough { length calls.now ≤ vec_capacity room }
    ensures made { Replayed E.Kind (idle_trio L.Placement R.Placement S.Placement resting) (opened lefts.old rights.old results.old) calls.now result.answers.items (moment lefts.new rights.new results.new (state_mode result.trio)) }
    ensures tables { state_trio L.Placement R.Placement S.Placement result.trio ≡ idle_trio L.Placement R.Placement S.Placement resting }
{
    let mut trio = State::Resting(resting);
    let mut answers = room;
    for call in calls {
        let (next, answer) = make(trio, lefts, rights, results, *call);
        trio = next;
        answers.push_reserved(answer);
    }
    Outcome { trio, answers }
}

// Makes a list of calls on a trio, one after the other. The memory for all answers is had before the first call is made,
// so want of it changes nothing.
pub fn replay<L: Placement + Drop, R: Placement + Drop, S: Placement + Drop, E: Kind + Copy>(
    heap: Global,
    resting: Idle<L, R, S>,
    lefts: &mut [E],
    rights: &mut [E],
    results: &mut [E],
    calls: &[Call<E>],
) -> Result<Outcome<L, R, S, E>, AllocError>
    ensures made { MatchResult result (λ v. Replayed E.Kind (idle_trio L.Placement R.Placement S.Placement resting) (opened lefts.old rights.old results.old) calls.now v.answers.items (moment lefts.new rights.new results.new (state_mode v.trio))) (λ _. opened lefts.new rights.new results.new ≡ opened lefts.old rights.old results.old) }
    ensures tables { IfOk result (λ v. state_trio L.Placement R.Placement S.Placement v.trio ≡ idle_trio L.Placement R.Placement S.Placement resting) }
{
    let room = Vec::with_capacity(heap, calls.len())?;
    Ok(play(resting, lefts, rights, results, calls, room))
}
