// A timetable office and a freight router keep the same tables under two placements, exchange them, and make the same
// products. The program prints what each does and is told, and whether the choice of a placement shows in any answer.
#![tactic(auto)]

mod failure;
mod letter;
mod network;
mod pace;
mod replies;
mod script;
mod shown;
mod site;
mod sites;
mod tables;
mod texts;

use calls::Table;
use failure::Failure;
use kinds::{Connection, Count, TravelTime};
use network::Zone;
use replies::compared;
use shown::Shown;
use site::Site;
use sites::Sites;
use std::io;
use tables::{Sheet, Transcript};
use tally::Tally;

// A site, with how its tables lie.
fn print_site(rt: &HostRuntime, text: &str, site: &Site<TravelTime>) -> Result<(), Failure> {
    let letter = site.letter()?;
    let cells = site.cells();
    let pairs = Zone::PAIRS;
    println!(rt;
        "{text}\n   A store has {cells} cells for {pairs} entries. The descriptor of the layout:{letter}"
    )?;
    Ok(())
}

// The two sites, and the tables as they came from the office to the router.
fn print_exchange(rt: &HostRuntime, times: &Sites<TravelTime>) -> Result<(), Failure> {
    print_site(rt, texts::OFFICE, &times.office)?;
    print_site(rt, texts::ROUTER, &times.router)?;
    let title = texts::DIRECT;
    let sheet = Sheet {
        site: &times.router,
        table: Table::Left,
    };
    println!(rt; "{title}\n{sheet}")?;
    Ok(())
}

// Both make the same calls, and each call is printed. Gives how many answers are the same.
fn print_same_calls(rt: &HostRuntime, times: &mut Sites<TravelTime>) -> io::Result<Tally> {
    let replies = times.make_same(rt.alloc())?;
    let title = texts::CALLS;
    let transcript = Transcript(replies.as_slice());
    let declined = texts::DECLINED;
    println!(rt; "{title}\n{transcript}\n{declined}")?;
    Ok(compared(replies.as_slice()))
}

// Both make the product once more, each at its own pace, and the finished table is printed.
fn print_product<E: Shown>(
    rt: &HostRuntime,
    title: &str,
    answers: Tally,
    sites: &mut Sites<E>,
) -> io::Result<()> {
    let (slow, fast) = sites.make_apart(rt.alloc())?;
    let sheet = Sheet {
        site: &sites.router,
        table: Table::Result,
    };
    println!(rt; "{title}\n{sheet}")?;
    println!(rt; "   Tile products made: office {slow}, router {fast}.")?;
    print_findings(rt, answers, sites)
}

// What a comparison of the two sites comes to.
fn verdict(compared: Tally) -> &'static str {
    if compared.is_clean() {
        "The sites agree."
    } else {
        "THE SITES DIFFER."
    }
}

// Whether the sites agree, and whether the idle cells were left alone.
fn print_findings<E: Shown>(rt: &HostRuntime, answers: Tally, sites: &Sites<E>) -> io::Result<()> {
    let entries = sites.agreement();
    let verdict = verdict(answers.and(entries));
    let office = sites.office.idle_cells();
    let router = sites.router.idle_cells();
    println!(rt; "   The same at both: {answers} answers, {entries} entries. {verdict}")?;
    println!(rt; "   Idle cells that still hold the marker: office {office}, router {router}.")
}

// Travel times, step by step.
fn travel_times(rt: &HostRuntime) -> Result<(), Failure> {
    let mut times = Sites::exchanged(rt.alloc())?;
    print_exchange(rt, &times)?;
    let answers = print_same_calls(rt, &mut times)?;
    Ok(print_product(rt, texts::TIMES, answers, &mut times)?)
}

// The same exchange and the same calls for another kind of element, of which the finished table is printed.
fn same_for<E: Shown>(rt: &HostRuntime, title: &str) -> Result<(), Failure> {
    let mut sites = Sites::<E>::exchanged(rt.alloc())?;
    let replies = sites.make_same(rt.alloc())?;
    let answers = compared(replies.as_slice());
    Ok(print_product(rt, title, answers, &mut sites)?)
}

fn run(rt: &HostRuntime) -> Result<(), Failure> {
    rt.println(texts::OPENING)?;
    travel_times(rt)?;
    same_for::<Count>(rt, texts::COUNTS)?;
    same_for::<Connection>(rt, texts::CONNECTIONS)
}

fn main(rt: HostRuntime) -> Result<(), Failure> {
    run(&rt)
}
