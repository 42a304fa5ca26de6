// One number of a descriptor as it is read, and the fault where it is refused. The definition of the whole reader is in
// specs/ and its laws are in proofs/; its code stands in reader.
#![tactic(auto)]

mod decoded;
mod fault;

pub use decoded::{Number, number_at};
pub use fault::Fault;
