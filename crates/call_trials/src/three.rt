// Something of each of the three tables of a trio.
use calls::Table;

// The tables in their order.
pub const TABLES: [Table; 3] = [Table::Left, Table::Right, Table::Result];

#[derive(Drop)]
pub struct Three<T> {
    pub left: T,
    pub right: T,
    pub result: T,
}

impl<T: Drop> Three<T> {
    // What is made of each table, in their order.
    pub fn each<F: FnMut(Table) -> T>(mut make: F) -> Three<T>
        requires { F.IsAlwaysCallable make }
    {
        Three {
            left: make(Table::Left),
            right: make(Table::Right),
            result: make(Table::Result),
        }
    }

    // The same where that can fail: the first failure ends it.
    pub fn try_each<X, F: FnMut(Table) -> Result<T, X>>(mut make: F) -> Result<Three<T>, X>
        requires { F.IsAlwaysCallable make }
    {
        Ok(Three {
            left: make(Table::Left)?,
            right: make(Table::Right)?,
            result: make(Table::Result)?,
        })
    }

    pub fn of(&self, table: Table) -> &T {
        match table {
            Table::Left => &self.left,
            Table::Right => &self.right,
            Table::Result => &self.result,
        }
    }

    pub fn of_mut(&mut self, table: Table) -> &mut T {
        match table {
            Table::Left => &mut self.left,
            Table::Right => &mut self.right,
            Table::Result => &mut self.result,
        }
    }
}
