// How many of the things that were looked at are as they should be.
#![tactic(auto)]

ghost use Rattle.std.specs.Prelude.{◌≡◌, ◌+◌, ◌-◌, ◌^◌, ◌≤◌, ◌==◌, min, if◌then◌else◌, List, ◌∷◌, ◌++◌, Bool, Some, length, filter, decimal};
ghost use Rattle.std.specs.Iterator.{Drains, IsFinite};

use std::fmt;

#[derive(Clone, Copy, PartialEq, Eq, Debug)]
pub struct Tally {
    pub good: u64,
    pub all: u64,
    ghost within: { good ≤ all },
}

impl Tally {
    // Nothing was looked at.
    pub fn new() -> Tally
        ensures { (result.good ≡ 0) × (result.all ≡ 0) }
    {
        Tally { good: 0, all: 0 }
    }

    // Looks at one thing more, and hands on what is found. Both numbers stop at the largest that they can hold.
    pub fn noting(self, is_good: bool) -> Tally
        ensures good { result.good ≡ (if is_good then min (self.good + 1) (2 ^ 64 - 1) else self.good) }
        ensures all { result.all ≡ min (self.all + 1) (2 ^ 64 - 1) }
    {
        Tally {
            good: self.good.saturating_add(u64::from(is_good)),
            all: self.all.saturating_add(1),
        }
    }

    // Looks at one thing more.
    pub fn note(&mut self, is_good: bool)
        ensures good { self.new.good ≡ (if is_good then min (self.old.good + 1) (2 ^ 64 - 1) else self.old.good) }
        ensures all { self.new.all ≡ min (self.old.all + 1) (2 ^ 64 - 1) }
    {
        *self = self.noting(is_good);
    }

    // What is found by looking at all of the given cases, each of which is true where it is as it should be.
    pub fn of<I: Iterator<Item = bool>>(cases: I) -> Tally
        requires can { I.can_next cases }
        requires finite { IsFinite (I.remaining cases) }
        ensures { (xs : List Bool)
            × Drains I.next_gives cases xs
            × (result.good ≡ min (length (filter (λ x. x) xs)) (2 ^ 64 - 1))
            × (result.all ≡ min (length xs) (2 ^ 64 - 1)) }
    {
        let mut tally = Tally::new();
        for is_good in cases {
            tally.note(is_good);
        }
        tally
    }

    // This and another tally taken together.
    pub fn and(self, other: Tally) -> Tally
        ensures good { result.good ≡ min (self.good + other.good) (2 ^ 64 - 1) }
        ensures all { result.all ≡ min (self.all + other.all) (2 ^ 64 - 1) }
    {
        Tally {
            good: self.good.saturating_add(other.good),
            all: self.all.saturating_add(other.all),
        }
    }

    // How many are not as they should be.
    pub fn bad(self) -> u64
        ensures { result + self.good ≡ self.all }
    {
        self.all - self.good
    }

    // Whether all are as they should be.
    pub fn is_clean(self) -> bool
        ensures { result ≡ (self.good == self.all) }
    {
        self.good == self.all
    }
}

// As in "3 of 4".
impl fmt::Display for Tally {
    ghost output = { λ t. Some (decimal t.good ++ (32 ∷ 111 ∷ 102 ∷ 32 ∷ decimal t.all)) };

    fn fmt<W: fmt::Write>(&self, f: &mut fmt::Formatter<W>) -> fmt::Result {
        let Tally { good, all } = *self;
        write!(f, "{good} of {all}")
    }
}
