// Makes random lists of calls on pairs of trios, and compares every answer and every cell with a second computation that
// shares no code with the library's trio, product and walk. Prints how often all agreed.
#![tactic(auto)]

mod grid;
mod journeys;
mod lists;
mod model;
mod report;
mod rounds;
mod sample;
mod sides;
mod source;
mod three;
mod trial;
mod triples;

use kinds::{Connection, Count, TravelTime};
use rounds::random_rounds;
use std::io;

fn main(rt: HostRuntime) -> io::Result<()> {
    let counts = random_rounds::<Count>(rt.alloc(), 1)?;
    println!(rt; "lists of calls on counts: {counts}")?;
    let times = random_rounds::<TravelTime>(rt.alloc(), 2)?;
    println!(rt; "lists of calls on travel times: {times}")?;
    let connections = random_rounds::<Connection>(rt.alloc(), 3)?;
    println!(rt; "lists of calls on connections: {connections}")?;
    let journeys = journeys::best_of_two(rt.alloc(), 4)?;
    println!(rt; "3 and then 4, or no path and then 5, comes to 7: {journeys}")
}
