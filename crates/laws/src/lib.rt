// The laws of the product of two tables, for every kind of element and in whatever order the tiles are visited.
#![tactic(auto)]

ghost use Rattle.std.specs.Prelude.{◌≡◌};
ghost use Rattle.laws.specs.Products.{Adds, ProductLaw, EntryLaw, PartLaw};
ghost use Rattle.laws.specs.Stores.{StoreLaw, RunLaw, SumsLaw};

use kinds::Kind;

// How many laws plus and zero of a kind have to keep for the product to come out: plus is associative and
// commutative, and zero plus an element is that element.
pub fn laws_of_a_kind<E>() -> u8
    ensures answer { result ≡ 3 }
    ensures product { ProductLaw E }
    ensures entry { EntryLaw E }
    ensures part { PartLaw E }
    ensures store { StoreLaw E }
{
    3
}

// How many of those laws every kind keeps: all, so that a walk of tile products leaves in the result's store each
// entry's old value plus the full sum of its terms.
pub fn laws_kept<E: Kind>() -> u8
    ensures answer { result ≡ 3 }
    ensures laws { Adds E.joined E.nought }
    ensures run { RunLaw E.Kind }
    ensures sums { SumsLaw E.Kind }
{
    laws_of_a_kind::<E>()
}
