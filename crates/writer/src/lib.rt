// The writer of descriptors.
#![tactic(auto)]

mod number;
mod writer;

pub use writer::{LONGEST, write};
