// The side of a table along which a stride runs.
ghost use Rattle.std.specs.Prelude.{◌≡◌, Bool, true, false};
ghost use Rattle.plans.specs.Plans.{line_of, place_of};

// A stride runs along lines, which are rows or columns: rows and columns change places, or they do not.
pub trait Axis {
    ghost turns: { Bool };

    // The line of an entry and its place in it, from its row and its column. It takes as well a line and a place, and
    // gives back their row and their column: to turn twice is not to turn.
    fn turned(row: u32, column: u32) -> (u32, u32)
        ensures line { result.0 ≡ line_of turns row column }
        ensures place { result.1 ≡ place_of turns row column };
}

// The lines are rows.
#[derive(Clone, Copy)]
pub struct ByRows;

// The lines are columns.
#[derive(Clone, Copy)]
pub struct ByColumns;

impl Axis for ByRows {
    ghost turns = { false };

    fn turned(row: u32, column: u32) -> (u32, u32) {
        (row, column)
    }
}

impl Axis for ByColumns {
    ghost turns = { true };

    fn turned(row: u32, column: u32) -> (u32, u32) {
        (column, row)
    }
}
