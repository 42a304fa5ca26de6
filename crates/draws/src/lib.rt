// Numbers that look random and are the same at every run, and what is drawn by them.
#![tactic(auto)]

ghost use Rattle.std.specs.Prelude.{◌≡◌, ◌^◌, ◌<◌, ◌≤◌, length, Contains, true};

pub trait Draws {
    // The next 32 bits of the sequence.
    fn next(&mut self) -> u32;

    // A number below the limit, or 0 where the limit is 0.
    fn below(&mut self, limit: u32) -> u32
        ensures { 0 < limit → result < limit }
    {
        self.next().checked_rem(limit).unwrap_or(0)
    }

    // A number from 1 up to the limit, or 1 where the limit is 0.
    fn up_to(&mut self, limit: u32) -> u32
        ensures least { 0 < result }
        ensures most { 0 < limit → result ≤ limit }
    {
        self.below(limit).saturating_add(1)
    }

    // True once in so many times.
    fn one_in(&mut self, times: u32) -> bool
        ensures { times ≡ 1 → result ≡ true }
    {
        self.below(times) == 0
    }

    // One of the given values.
    fn one_of<T: Copy>(&mut self, values: &[T]) -> T
        requires some { 0 < length values.now }
        requires few { length values.now < 2 ^ 32 }
        ensures { Contains values.now result }
    {
        values[self.below(values.len() as u32) as usize]
    }
}
