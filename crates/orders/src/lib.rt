// The layouts of the named orders.
#![tactic(auto)]

mod orders;

pub use orders::named;
