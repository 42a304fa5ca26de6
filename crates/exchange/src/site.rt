// A site: its layout, and the stores of its three tables.
use crate::failure::Failure;
use crate::letter::Letter;
use crate::network::Zone;
use crate::pace::Pace;
use crate::replies::Reply;
use crate::script;
use crate::script::{LEFT, Question, RIGHT};
use crate::shown::Shown;
use calls::{Answer, Call, Table};
use layouts::Layout;
use masked::Refusal;
use placement::Placement;
use promise::{replay, replay_both};
use std::alloc::{AllocError, Global};
use tally::Tally;
use trio::Idle;

// A store is longer than its table's span by this many cells.
const SPARE: usize = 3;

// Its three stores are lent to each call as three slices, and so stand side by side.
#[derive(Drop)]
pub struct Site<E> {
    layout: Layout,
    lefts: Vec<E>,
    rights: Vec<E>,
    results: Vec<E>,
}

// A store for a table of the layout, with the marker in every cell.
fn marked<E: Shown>(heap: Global, layout: &Layout) -> Result<Vec<E>, AllocError> {
    vec![in heap; E::marker(); layout.span() as usize + SPARE]
}

impl<E: Shown> Site<E> {
    // A site before the first call.
    pub fn new(heap: Global, layout: Layout) -> Result<Site<E>, AllocError> {
        Ok(Site {
            layout,
            lefts: marked(heap, &layout)?,
            rights: marked(heap, &layout)?,
            results: marked(heap, &layout)?,
        })
    }

    // How many cells each of the stores has.
    pub fn cells(&self) -> usize {
        self.lefts.len()
    }

    // The descriptor of the layout.
    pub fn letter(&self) -> Result<Letter, Failure> {
        Letter::about(&self.layout)
    }

    // The tables as a trio. All three have one layout.
    fn trio(&self) -> Idle<Layout, Layout, Layout> {
        Idle::open(self.layout, self.layout, self.layout)
    }

    // Takes over the left and the right table of another site, of whose layout it knows the descriptor only. A trio that
    // has a table of its own on the left and one of the other's on the right copies the second to the first, entry by
    // entry through the two placements.
    pub fn receive(&mut self, letter: &Letter, other: &mut Site<E>) -> Result<(), Failure> {
        let between = Idle::open(self.layout, letter.layout()?, self.layout);
        let spare = self.results.as_mut_slice();
        let mut take_over = |own: &mut Vec<E>, theirs: &mut Vec<E>| {
            let (own, theirs) = (own.as_mut_slice(), theirs.as_mut_slice());
            between.copy(own, theirs, spare, LEFT, RIGHT, false)
        };
        take_over(&mut self.lefts, &mut other.lefts)?;
        take_over(&mut self.rights, &mut other.rights)?;
        Ok(())
    }

    // Makes a list of calls, and gives the answers.
    pub fn make(&mut self, heap: Global, calls: &[Call<E>]) -> Result<Vec<Answer<E>>, AllocError> {
        let outcome = replay(
            heap,
            self.trio(),
            self.lefts.as_mut_slice(),
            self.rights.as_mut_slice(),
            self.results.as_mut_slice(),
            calls,
        )?;
        Ok(outcome.answers)
    }

    // Makes the product once more, in as many steps as are given, each of as many tile products as are given.
    pub fn make_product(
        &mut self,
        heap: Global,
        steps: usize,
        count: u64,
    ) -> Result<Pace, AllocError> {
        let calls = script::product(heap, steps, count)?;
        let answers = self.make(heap, calls.as_slice())?;
        Ok(Pace::of(answers.as_slice()))
    }

    // An entry of one of the tables.
    pub fn entry(&self, table: Table, from: Zone, to: Zone) -> Result<E, Refusal> {
        self.trio().get(
            self.lefts.as_slice(),
            self.rights.as_slice(),
            self.results.as_slice(),
            table as u32,
            from.index(),
            to.index(),
        )
    }

    // How many of the cells that no entry has still hold the marker.
    pub fn idle_cells(&self) -> Tally {
        let markers = [&self.lefts, &self.rights, &self.results]
            .into_iter()
            .flat_map(|store| (0..u32::MAX).zip(store.iter()))
            .filter(|(cell, _)| self.layout.owner(*cell).is_none())
            .map(|(_, element)| *element == E::marker());
        Tally::of(markers)
    }
}

// Makes one list of calls at both sites. The contract of `replay_both` holds what the library promises: tables of equal
// shapes and entries get equal answers and keep equal entries, whatever their placements, and no idle cell changes.
pub fn make_both<E: Shown>(
    heap: Global,
    office: &mut Site<E>,
    router: &mut Site<E>,
    questions: &[Question<E>],
) -> Result<Vec<Reply<E>>, AllocError> {
    let calls: Vec<Call<E>> = questions
        .iter()
        .map(|question| question.call)
        .collect(heap)?;
    let outcomes = replay_both(
        heap,
        office.trio(),
        office.lefts.as_mut_slice(),
        office.rights.as_mut_slice(),
        office.results.as_mut_slice(),
        router.trio(),
        router.lefts.as_mut_slice(),
        router.rights.as_mut_slice(),
        router.results.as_mut_slice(),
        calls.as_slice(),
    )?;
    let at_office = &outcomes.first.answers;
    let at_router = &outcomes.second.answers;
    questions
        .iter()
        .enumerate()
        .map(|(n, question)| Reply {
            words: question.words,
            office: at_office.get(n).copied(),
            router: at_router.get(n).copied(),
        })
        .collect(heap)
}
