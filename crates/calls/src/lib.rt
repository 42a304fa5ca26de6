// The calls of a trio as values, and what each answers and does.
#![tactic(auto)]

mod call;
mod table;

pub use call::{Answer, Call};
pub use table::Table;
