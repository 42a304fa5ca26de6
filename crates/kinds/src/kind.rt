// What every kind of element answers, and what may be relied on: nothing else may be assumed of a kind.
ghost use Rattle.std.specs.Prelude.{◌≡◌};

pub trait Kind: Sized {
    // The meaning of zero, of plus and of times.
    ghost nought: { Self };

    ghost joined: { Self → Self → Self };

    ghost chained: { Self → Self → Self };

    fn zero() -> Self
        ensures { result ≡ nought };

    fn plus(self, other: Self) -> Self
        ensures { result ≡ joined self other };

    fn times(self, other: Self) -> Self
        ensures { result ≡ chained self other };

    ghost associative: { (a b c : Self) → joined (joined a b) c ≡ joined a (joined b c) };

    ghost commutative: { (a b : Self) → joined a b ≡ joined b a };

    ghost neutral: { (a : Self) → joined nought a ≡ a };
}
