// Reads lines of named orders from standard input, and prints the descriptor of each.
#![tactic(auto)]

use answers::{LIMIT, describe};
use std::io;
use std::io::Read;

fn main(rt: HostRuntime) -> io::Result<()> {
    let mut input = Vec::new(rt.alloc());
    // What follows the bytes that are described is left unread.
    rt.stdin().take(LIMIT as u64).read_to_end(&mut input)?;
    let text = describe(rt.alloc(), &input)?;
    rt.print(text)
}
