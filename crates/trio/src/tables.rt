// The three tables of a trio.
ghost use Rattle.std.specs.Prelude.{◌≡◌, if◌then◌else◌, nat_le, Ok, Err};
ghost use Rattle.masked.specs.declared.refusal.Refusal.TheVariants.{Store, Mismatch, TileOrder};
ghost use Rattle.calls.specs.Tables.{table_numbered};
ghost use Rattle.calls.specs.Views.{and_then, provided};
ghost use Rattle.calls.specs.Moments.{all_long, fits, trio_sizes};
ghost use Rattle.trio.specs.Trios.{trio_of};

use calls::Table;
use masked::Refusal;
use placement::Placement;
use walk::Sizes;

// Where the tables lie: the placements of left, right and result.
#[derive(Drop)]
pub(crate) struct Tables<L, R, S> {
    pub(crate) left: L,
    pub(crate) right: R,
    pub(crate) result: S,
}

impl<L: Placement, R: Placement, S: Placement> Tables<L, R, S> {
    // Refuses where one of the three stores is shorter than its table's span.
    pub(crate) fn check_stores<E>(
        &self,
        lefts: &[E],
        rights: &[E],
        results: &[E],
    ) -> Result<(), Refusal>
        ensures { result ≡ (if all_long (trio_of L.Placement R.Placement S.Placement self.now) lefts.now rights.now results.now then Ok tt else Err Store) }
    {
        if self.left.span() as usize <= lefts.len()
            && self.right.span() as usize <= rights.len()
            && self.result.span() as usize <= results.len()
        {
            Ok(())
        } else {
            Err(Refusal::Store)
        }
    }

    // The table of a number, or a refusal where there is none, or one of the stores is too short.
    pub(crate) fn table<E>(
        &self,
        lefts: &[E],
        rights: &[E],
        results: &[E],
        table: u32,
    ) -> Result<Table, Refusal>
        ensures { result ≡ and_then (table_numbered table) (λ named. provided (all_long (trio_of L.Placement R.Placement S.Placement self.now) lefts.now rights.now results.now) Store (Ok named)) }
    {
        let named = Table::try_from(table)?;
        self.check_stores(lefts, rights, results)?;
        Ok(named)
    }

    // Refuses where a run of a tile order cannot begin. The shapes are judged before the order.
    pub(crate) fn check_run(&self, order: u32) -> Result<(), Refusal>
        ensures { result ≡ (if fits (trio_of L.Placement R.Placement S.Placement self.now) then (if nat_le order 12 then Ok tt else Err TileOrder) else Err Mismatch) }
    {
        if !self.are_joined() {
            return Err(Refusal::Mismatch);
        }
        if order > 12 {
            return Err(Refusal::TileOrder);
        }
        Ok(())
    }

    // Whether the tables are r by q, q by c and r by c.
    pub(crate) fn are_joined(&self) -> bool
        ensures { result ≡ fits (trio_of L.Placement R.Placement S.Placement self.now) }
    {
        let left = self.left.shape();
        let right = self.right.shape();
        let result = self.result.shape();
        left.columns == right.rows && left.rows == result.rows && right.columns == result.columns
    }

    // The sizes of the product, in tiles of an order.
    pub(crate) fn sizes(&self, order: u32) -> Sizes
        ensures { result ≡ trio_sizes (trio_of L.Placement R.Placement S.Placement self.now) order }
    {
        let left = self.left.shape();
        let right = self.right.shape();
        let result = self.result.shape();
        Sizes {
            rows: left.rows.min(result.rows),
            columns: right.columns.min(result.columns),
            middle: left.columns.min(right.rows),
            order,
        }
    }
}
