// The whole promise, held by the call that replays one list of calls on two trios.
ghost use Rattle.std.specs.Prelude.{◌≡◌, IfOk, MatchResult};
ghost use Rattle.calls.specs.Moments.{Long, moment, opened};
ghost use Rattle.calls.specs.Promises.{FinishedLaw, FinishableLaw, RemainingLaw, DeclinedLaw, IdleCellsLaw, ShownLaw, Alike, AlikeLaw};
ghost use Rattle.decoding.specs.Laws.{OneForm};
ghost use Rattle.trio.specs.Trios.{idle_trio};
ghost use Rattle.promise.specs.Replays.{Replayed, state_mode};

use crate::replaying::{Outcome, play};
use calls::Call;
use kinds::Kind;
use placement::Placement;
use std::alloc::{AllocError, Global};
use trio::Idle;

// What a replay on two trios gives.
#[derive(Drop)]
pub struct Outcomes<L, R, S, M, N, O, E> {
    pub first: Outcome<L, R, S, E>,
    pub second: Outcome<M, N, O, E>,
}

// Makes one list of calls on two trios. The memory for all answers is had before the first call is made, so want of it
// changes nothing.
//
// Its contract holds the promise of the library, for every list of calls, every store and every placement:
// - `finished`: where a run finishes, each entry of the result is its value when the run began plus its full sum. `finishable`
//   says that runs do finish, and `remaining` what is answered on the way;
// - `alike`: two trios with equal shapes and entries give the same answers to every list, refusals too, and have equal entries
//   after every call; `idle_cells` says that no cell changes that no entry has, and `declined` that a call that is declined
//   changes nothing; `shown` says that the entries in the stores after a call are those that the call leaves; `agree` says the
//   same as `alike` of the two trios given;
// - `one_descriptor`: two descriptors that the reader accepts are equal exactly where they say one placement.
pub fn replay_both<
    L: Placement + Drop,
    R: Placement + Drop,
    S: Placement + Drop,
    M: Placement + Drop,
    N: Placement + Drop,
    O: Placement + Drop,
    E: Kind + Copy,
>(
    heap: Global,
    first: Idle<L, R, S>,
    lefts: &mut [E],
    rights: &mut [E],
    results: &mut [E],
    second: Idle<M, N, O>,
    other_lefts: &mut [E],
    other_rights: &mut [E],
    other_results: &mut [E],
    calls: &[Call<E>],
) -> Result<Outcomes<L, R, S, M, N, O, E>, AllocError>
    ensures first { MatchResult result (λ v. Replayed E.Kind (idle_trio L.Placement R.Placement S.Placement first) (opened lefts.old rights.old results.old) calls.now v.first.answers.items (moment lefts.new rights.new results.new (state_mode v.first.trio))) (λ _. opened lefts.new rights.new results.new ≡ opened lefts.old rights.old results.old) }
    ensures second { MatchResult result (λ v. Replayed E.Kind (idle_trio M.Placement N.Placement O.Placement second) (opened other_lefts.old other_rights.old other_results.old) calls.now v.second.answers.items (moment other_lefts.new other_rights.new other_results.new (state_mode v.second.trio))) (λ _. opened other_lefts.new other_rights.new other_results.new ≡ opened other_lefts.old other_rights.old other_results.old) }
    ensures agree { IfOk result (λ v. Long (idle_trio L.Placement R.Placement S.Placement first) (opened lefts.old rights.old results.old) → Long (idle_trio M.Placement N.Placement O.Placement second) (opened other_lefts.old other_rights.old other_results.old) → Alike E.Kind (idle_trio L.Placement R.Placement S.Placement first) (idle_trio M.Placement N.Placement O.Placement second) (opened lefts.old rights.old results.old) (opened other_lefts.old other_rights.old other_results.old) → v.first.answers.items ≡ v.second.answers.items) }
    ensures finished { FinishedLaw E.Kind (idle_trio L.Placement R.Placement S.Placement first) × FinishedLaw E.Kind (idle_trio M.Placement N.Placement O.Placement second) }
    ensures finishable { FinishableLaw E.Kind (idle_trio L.Placement R.Placement S.Placement first) × FinishableLaw E.Kind (idle_trio M.Placement N.Placement O.Placement second) }
    ensures remaining { RemainingLaw E.Kind (idle_trio L.Placement R.Placement S.Placement first) × RemainingLaw E.Kind (idle_trio M.Placement N.Placement O.Placement second) }
    ensures declined { DeclinedLaw E.Kind (idle_trio L.Placement R.Placement S.Placement first) × DeclinedLaw E.Kind (idle_trio M.Placement N.Placement O.Placement second) }
    ensures idle_cells { IdleCellsLaw E.Kind (idle_trio L.Placement R.Placement S.Placement first) × IdleCellsLaw E.Kind (idle_trio M.Placement N.Placement O.Placement second) }
    ensures shown { ShownLaw E.Kind (idle_trio L.Placement R.Placement S.Placement first) × ShownLaw E.Kind (idle_trio M.Placement N.Placement O.Placement second) }
    ensures alike { AlikeLaw E.Kind (idle_trio L.Placement R.Placement S.Placement first) (idle_trio M.Placement N.Placement O.Placement second) }
    ensures one_descriptor { OneForm }
{
    let room = Vec::with_capacity(heap, calls.len())?;
    let other_room = Vec::with_capacity(heap, calls.len())?;
    let first = play(first, lefts, rights, results, calls, room);
    let second = play(
        second,
        other_lefts,
        other_rights,
        other_results,
        calls,
        other_room,
    );
    Ok(Outcomes { first, second })
}
