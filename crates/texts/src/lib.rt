// Bytes in hexadecimal, as text.
#![tactic(auto)]

mod text;

pub use text::{Hex, push_hex};
