// What the line program answers: descriptors for lines of named orders.
#![tactic(auto)]

mod describing;

pub use describing::{LIMIT, describe};
