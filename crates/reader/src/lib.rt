// The reader of descriptors.
#![tactic(auto)]

mod extent;
mod reader;

pub use reader::read;
