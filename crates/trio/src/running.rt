// The calls of a run.
ghost use Rattle.std.specs.Prelude.{◌≡◌, ◌-◌, ◌≤◌, max, length, take, drop};
ghost use Rattle.laws.specs.Stores.{run_stored};
ghost use Rattle.product.specs.Tiles.{Tables as Fit};
ghost use Rattle.walk.specs.Walks.{walk_of};
ghost use Rattle.calls.specs.declared.call.Call.TheVariants.{Step};
ghost use Rattle.calls.specs.Moments.{Called, moment, remaining_of};
ghost use Rattle.calls.specs.Views.{step_answer};
ghost use Rattle.trio.specs.Trios.{run_trio, run_mode, run_ended};

use crate::{Idle, Run};
use kinds::Kind;
use masked::Refusal;
use placement::Placement;
use product::{Held, tile_product};
use walk::{Sizes, triple_at};

impl<L: Placement, R: Placement, S: Placement> Run<L, R, S> {
    // How many tile products are still to make.
    pub fn remaining(&self) -> u64
        ensures { result ≡ remaining_of (run_trio L.Placement R.Placement S.Placement self.now) self.now.order self.now.made }
    {
        walk::count(self.tables.sizes(self.order)).saturating_sub(self.made)
    }

    // Makes the next tile products of the walk, as many as are asked for and are still to make, and answers how many.
    pub fn step<E: Kind + Copy>(
        &mut self,
        lefts: &[E],
        rights: &[E],
        results: &mut [E],
        count: u64,
    ) -> Result<u64, Refusal>
        ensures call { Called E.Kind (run_trio L.Placement R.Placement S.Placement self.old) (moment lefts.now rights.now results.old (run_mode self.old)) (Step count) (step_answer result) (moment lefts.now rights.now results.new (run_mode self.new)) }
        ensures tables { run_ended self.new ≡ run_ended self.old }
    {
        self.tables.check_stores(lefts, rights, results)?;
        let sizes = self.tables.sizes(self.order);
        let total = walk::count(sizes);
        let made = self.made;
        let making = count.min(total.saturating_sub(made));
        make_products(
            Held::new(&self.tables.left, lefts),
            Held::new(&self.tables.right, rights),
            &self.tables.result,
            results,
            sizes,
            made,
            made + making,
        );
        self.made = made + making;
        Ok(making)
    }

    // Ends the run, finished or not, and gives the idle trio back.
    pub fn end(self) -> Idle<L, R, S>
        ensures { result ≡ run_ended self }
    {
        Idle {
            tables: self.tables,
        }
    }
}

// Makes the tile products of the walk from one place on and before another.
fn make_products<L: Placement, R: Placement, S: Placement, E: Kind + Copy>(
    left: Held<L, E>,
    right: Held<R, E>,
    target: &S,
    results: &mut [E],
    sizes: Sizes,
    from: u64,
    to: u64,
)
    requires tables { Fit sizes (L.site left.placement.now) (R.site right.placement.now) (S.site target.now) results.old }
    requires order { from ≤ to }
    requires within { to ≤ max from (length (walk_of sizes)) }
    ensures { results.new ≡ run_stored E.Kind sizes (L.site left.entry.placement.now) (R.site right.entry.placement.now) (S.site target.now) left.entry.store.now right.entry.store.now results.old (take (to - from) (drop from (walk_of sizes))) }
{
    for n in from..to {
        let triple = triple_at(sizes, n).unwrap();
        tile_product(left, right, target, results, sizes, triple);
    }
}
