// Numbers that look random and are the same at every run: three shifts a number. `call_trials` has a generator of its own,
// since each has another sequence, and what is tried and printed hangs on it.
use draws::Draws;
use std::alloc::Global;

// The letters of the named orders.
pub const LETTERS: [char; 5] = ['R', 'C', 'Z', 'N', 'H'];

#[derive(Clone, Copy)]
pub struct Source {
    // Where lists of what is drawn lie.
    pub heap: Global,
    state: u64,
}

impl Source {
    pub fn new(heap: Global, seed: u64) -> Source {
        Source { heap, state: seed }
    }

    // The inner width of a named order, below the limit. Only H takes one.
    pub fn inner(&mut self, letter: char, limit: u32) -> u32 {
        if letter == 'H' { self.below(limit) } else { 0 }
    }
}

impl Draws for Source {
    fn next(&mut self) -> u32 {
        let mut x = self.state;
        x ^= x.wrapping_shl(13);
        x ^= x / 128;
        x ^= x.wrapping_shl(17);
        self.state = x;
        (x % 4_294_967_296) as u32
    }
}
