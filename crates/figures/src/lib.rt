// The known figures in one list.
#![tactic(auto)]

ghost use Rattle.std.specs.Prelude.{◌≡◌};
ghost use Rattle.figures.specs.Figures.{Figures};

// How many figures the list has. That the definitions give them is the contract.
pub fn known_figures() -> u32
    ensures count { result ≡ 16 }
    ensures figures { Figures }
{
    16
}
