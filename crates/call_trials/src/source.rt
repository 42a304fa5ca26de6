// Numbers that look random and are the same at every run: steps of one odd number, each stirred by two products. `trials`
// has a generator of its own, since each has another sequence, and what is tried and printed hangs on it.
use draws::Draws;
use std::alloc::Global;

#[derive(Clone, Copy)]
pub struct Source {
    // Where lists of what is drawn lie.
    pub heap: Global,
    state: u64,
}

impl Source {
    // The numbers of a seed and a round, so that one round can be made again without those before it.
    pub fn new(heap: Global, seed: u64, round: u32) -> Source {
        Source {
            heap,
            state: seed.wrapping_add(u64::from(round).wrapping_mul(0xd1b5_4a32_d192_ed03)),
        }
    }
}

impl Draws for Source {
    fn next(&mut self) -> u32 {
        self.state = self.state.wrapping_add(0x9e37_79b9_7f4a_7c15);
        let mut x = self.state;
        x = (x ^ (x >> 30)).wrapping_mul(0xbf58_476d_1ce4_e5b9);
        x = (x ^ (x >> 27)).wrapping_mul(0x94d0_49bb_1331_11eb);
        (x >> 32) as u32
    }
}
