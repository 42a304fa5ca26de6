// Runs the library against computations of its own, and prints how often the two agree.
#![tactic(auto)]

mod placements;
mod products;
mod readings;
mod source;

use kinds::{Connection, Count, TravelTime};
use products::products_of;
use std::io;
use tally::Tally;

fn print(rt: &HostRuntime, title: &str, tally: Tally) -> io::Result<()> {
    let agree = tally.good;
    let differ = tally.bad();
    println!(rt; "{title}: {agree} agree, {differ} differ")
}

fn main(rt: HostRuntime) -> io::Result<()> {
    let heap = rt.alloc();
    print(
        &rt,
        "strings of up to three bytes",
        readings::short_strings(),
    )?;
    print(&rt, "random strings", readings::random_strings(heap))?;
    let damaged = readings::damaged_descriptors(heap);
    print(&rt, "damaged descriptors", damaged)?;
    let orders = placements::named_orders();
    print(&rt, "named orders of small tables", orders)?;
    let counts = products_of::<Count>(heap, 0x1234_5678_9abc_def1)?;
    print(&rt, "products of counts", counts)?;
    let times = products_of::<TravelTime>(heap, 0x0fed_cba9_8765_4321)?;
    print(&rt, "products of travel times", times)?;
    let connections = products_of::<Connection>(heap, 0x0011_2233_4455_6677)?;
    print(&rt, "products of connections", connections)
}
