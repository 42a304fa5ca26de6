// The calls of an idle trio.
ghost use Rattle.std.specs.Prelude.{◌≡◌, ℕ, ◌<◌, ◌≤◌, length, if◌then◌else◌, Ok, Err, slice_set};
ghost use Rattle.masked.specs.declared.refusal.Refusal.TheVariants.{Outside, Mismatch};
ghost use Rattle.placement.specs.Sites.{Inside};
ghost use Rattle.laws.specs.Stores.{entry_of, stored};
ghost use Rattle.calls.specs.declared.call.Call.TheVariants.{Put, Get, Clear, Copy};
ghost use Rattle.calls.specs.Moments.{Called, opened, held_in, copy_can};
ghost use Rattle.calls.specs.Views.{told, get_answer, shapes_fit, turned};
ghost use Rattle.trio.specs.Trios.{idle_trio, begin_result, Computes};

use crate::tables::Tables;
use crate::{Declined, Idle, Run};
use calls::Table;
use kinds::Kind;
use masked::Refusal;
use placement::{Placement, Shape};
use product::Held;

impl<L: Placement, R: Placement, S: Placement> Idle<L, R, S> {
    // An idle trio over three placements: left is r by q, right q by c and the target r by c where a run is to begin.
    pub fn open(left: L, right: R, target: S) -> Idle<L, R, S>
        ensures { result ≡ record { tables = record { left = left; right = right; result = target } } }
    {
        Idle {
            tables: Tables {
                left,
                right,
                result: target,
            },
        }
    }

    // The three stores are lent one by one here and below: the contract names each at entry and at the return by itself; get
    // writes none of them, and step only one. Each clause names the placements' members, which no `impl Model` can speak of.

    // Writes one entry.
    pub fn put<E: Kind + Copy>(
        &self,
        lefts: &mut [E],
        rights: &mut [E],
        results: &mut [E],
        table: u32,
        row: u32,
        column: u32,
        value: E,
    ) -> Result<(), Refusal>
        ensures { Called E.Kind (idle_trio L.Placement R.Placement S.Placement self.now) (opened lefts.old rights.old results.old) (Put table row column value) (told result) (opened lefts.new rights.new results.new) }
    {
        match self.tables.table(lefts, rights, results, table)? {
            Table::Left => put_entry(&self.tables.left, lefts, row, column, value),
            Table::Right => put_entry(&self.tables.right, rights, row, column, value),
            Table::Result => put_entry(&self.tables.result, results, row, column, value),
        }
    }

    // Answers one entry.
    pub fn get<E: Kind + Copy>(
        &self,
        lefts: &[E],
        rights: &[E],
        results: &[E],
        table: u32,
        row: u32,
        column: u32,
    ) -> Result<E, Refusal>
        ensures { Called E.Kind (idle_trio L.Placement R.Placement S.Placement self.now) (opened lefts.now rights.now results.now) (Get table row column) (get_answer result) (opened lefts.now rights.now results.now) }
    {
        match self.tables.table(lefts, rights, results, table)? {
            Table::Left => get_entry(Held::new(&self.tables.left, lefts), row, column),
            Table::Right => get_entry(Held::new(&self.tables.right, rights), row, column),
            Table::Result => get_entry(Held::new(&self.tables.result, results), row, column),
        }
    }

    // Sets all entries of a table to zero.
    pub fn clear<E: Kind + Copy>(
        &self,
        lefts: &mut [E],
        rights: &mut [E],
        results: &mut [E],
        table: u32,
    ) -> Result<(), Refusal>
        ensures { Called E.Kind (idle_trio L.Placement R.Placement S.Placement self.now) (opened lefts.old rights.old results.old) (Clear table) (told result) (opened lefts.new rights.new results.new) }
    {
        match self.tables.table(lefts, rights, results, table)? {
            Table::Left => clear_table(&self.tables.left, lefts),
            Table::Right => clear_table(&self.tables.right, rights),
            Table::Result => clear_table(&self.tables.result, results),
        }
        Ok(())
    }

    // Sets all entries of one table from another, plain or transposed.
    pub fn copy<E: Kind + Copy>(
        &self,
        lefts: &mut [E],
        rights: &mut [E],
        results: &mut [E],
        to: u32,
        from: u32,
        transposed: bool,
    ) -> Result<(), Refusal>
        ensures { Called E.Kind (idle_trio L.Placement R.Placement S.Placement self.now) (opened lefts.old rights.old results.old) (Copy to from transposed) (told result) (opened lefts.new rights.new results.new) }
    {
        let target = Table::try_from(to)?;
        let source = Table::try_from(from)?;
        if target == source {
            return Err(Refusal::Table);
        }
        self.tables.check_stores(lefts, rights, results)?;
        let Tables {
            left,
            right,
            result,
        } = &self.tables;
        match (target, source) {
            (Table::Left, Table::Right) => {
                copy_table(left, lefts, Held::new(right, rights), transposed)
            }
            (Table::Left, Table::Result) => {
                copy_table(left, lefts, Held::new(result, results), transposed)
            }
            (Table::Right, Table::Left) => {
                copy_table(right, rights, Held::new(left, lefts), transposed)
            }
            (Table::Right, Table::Result) => {
                copy_table(right, rights, Held::new(result, results), transposed)
            }
            (Table::Result, Table::Left) => {
                copy_table(result, results, Held::new(left, lefts), transposed)
            }
            (Table::Result, Table::Right) => {
                copy_table(result, results, Held::new(right, rights), transposed)
            }
            _ => unreachable!(),
        }
    }

    // Turns the idle trio into a run of a tile order, or gives it back.
    pub fn begin(self, order: u32) -> Result<Run<L, R, S>, Declined<L, R, S>>
        ensures { result ≡ begin_result (idle_trio L.Placement R.Placement S.Placement self) self order }
    {
        match self.tables.check_run(order) {
            Ok(()) => Ok(Run {
                tables: self.tables,
                order,
                made: 0,
            }),
            Err(refusal) => Err(Declined {
                idle: self,
                refusal,
            }),
        }
    }
}

// Writes one entry of a table, or refuses where the row or the column lies outside. A struct that holds the store to write
// would need a clause on which store it holds in place of the one on its length, and so at `fill` and below.
fn put_entry<P: Placement, E: Kind + Copy>(
    placement: &P,
    store: &mut [E],
    row: u32,
    column: u32,
    value: E,
) -> Result<(), Refusal>
    requires { (P.site placement.now).span ≤ length store.old }
    ensures answer { result ≡ (if held_in (P.site placement.now) row column then Ok tt else Err Outside) }
    ensures cells { store.new ≡ (if held_in (P.site placement.now) row column then slice_set store.old ((P.site placement.now).cell row column) value else store.old) }
{
    let cell = placement.address(row, column)?;
    store[cell as usize] = value;
    Ok(())
}

// The entry of a table, or a refusal where the row or the column lies outside.
fn get_entry<P: Placement, E: Kind + Copy>(
    table: Held<P, E>,
    row: u32,
    column: u32,
) -> Result<E, Refusal>
    ensures { result ≡ (if held_in (P.site table.entry.placement.now) row column then Ok (entry_of (P.site table.entry.placement.now) E.nought table.entry.store.now row column) else Err Outside) }
{
    let cell = table.placement.address(row, column)?;
    Ok(table.store[cell as usize])
}

// Sets every entry of a table to what a closure answers for its row and column, and no other cell.
fn fill<P: Placement, E: Kind + Copy, F: Fn(u32, u32) -> E>(
    placement: &P,
    store: &mut [E],
    entry: F,
)
    requires long { (P.site placement.now).span ≤ length store.old }
    requires callable { (i j : ℕ) → Inside (P.site placement.now) i j → F.pre entry i j }
    ensures { (f : ℕ → ℕ → E) → Computes (P.site placement.now) (F.post entry) f → store.new ≡ stored (P.site placement.now) f store.old }
{
    let shape = placement.shape();
    for row in 0..shape.rows {
        for column in 0..shape.columns {
            put_entry(placement, store, row, column, entry(row, column)).unwrap();
        }
    }
}

// Sets all entries of a table to zero.
fn clear_table<P: Placement, E: Kind + Copy>(placement: &P, store: &mut [E])
    requires { (P.site placement.now).span ≤ length store.old }
    ensures { store.new ≡ stored (P.site placement.now) (λ _ _. E.nought) store.old }
{
    fill(placement, store, |_, _| E::zero());
}

// The row and the column, changed about where a copy is transposed.
fn turn(row: u32, column: u32, transposed: bool) -> (u32, u32)
    ensures { result ≡ (if transposed then (column, row) else (row, column)) }
{
    if transposed {
        (column, row)
    } else {
        (row, column)
    }
}

// Whether all entries of a table can be set from another: the shapes are the same, or where the copy is transposed the
// same with rows and columns changed about.
fn are_fitting(shape: Shape, from: Shape, transposed: bool) -> bool
    ensures { result ≡ shapes_fit transposed shape.rows shape.columns from.rows from.columns }
{
    (shape.rows, shape.columns) == turn(from.rows, from.columns, transposed)
}

// Sets all entries of a table from another, plain or transposed, or refuses where the shapes do not fit.
fn copy_table<P: Placement, Q: Placement, E: Kind + Copy>(
    placement: &P,
    store: &mut [E],
    source: Held<Q, E>,
    transposed: bool,
) -> Result<(), Refusal>
    requires { (P.site placement.now).span ≤ length store.old }
    ensures answer { result ≡ (if copy_can transposed (P.site placement.now) (Q.site source.entry.placement.now) then Ok tt else Err Mismatch) }
    ensures cells { store.new ≡ (if copy_can transposed (P.site placement.now) (Q.site source.entry.placement.now) then stored (P.site placement.now) (turned transposed (entry_of (Q.site source.entry.placement.now) E.nought source.entry.store.now)) store.old else store.old) }
{
    if !are_fitting(placement.shape(), source.placement.shape(), transposed) {
        return Err(Refusal::Mismatch);
    }
    fill(
        placement,
        store,
        |row, column| -> E
            requires { Inside (Q.site source.placement.now) (if transposed then column else row) (if transposed then row else column) }
            ensures { result ≡ turned transposed (entry_of (Q.site source.entry.placement.now) E.nought source.entry.store.now) row column }
        {
            let (i, j) = turn(row, column, transposed);
            source.entry(i, j)
        },
    );
    Ok(())
}
