// Compares the library's figures with a second calculation, over many generated kits.
#![tactic(auto)]

mod kits;
mod second;

use draft::Draft;
use file::encode;
use kits::Seed;
use plan::PlanFault;
use printing::{SheetFault, quote_of};
use second::{Fault, Second};
use std::{fmt, io};
use table::{Quote, TableFault};

// How many kits of a family were compared, by their outcome, and how many differ.
#[derive(Clone, Copy, Default)]
struct Tally {
    accepted: u32,
    low: u32,
    crowded: u32,
    climbing: u32,
    overloaded: u32,
    undecided: u32,
    differing: u32,
}

impl fmt::Display for Tally {
    fn fmt<W: fmt::Write>(&self, f: &mut fmt::Formatter<W>) -> fmt::Result {
        write!(
            f,
            "{} accepted, {} low, {} crowded, {} climbing, {} overloaded, {} undecided, {} differing",
            self.accepted,
            self.low,
            self.crowded,
            self.climbing,
            self.overloaded,
            self.undecided,
            self.differing
        )
    }
}

// What a comparison comes to; where the library's rounds run out, nothing is decided.
#[derive(Clone, Copy, Debug, PartialEq, Eq)]
enum Verdict {
    Same,
    Undecided,
    Differing,
}

fn judged(same: bool) -> Verdict {
    if same {
        Verdict::Same
    } else {
        Verdict::Differing
    }
}

// Whether every figure of a quote is the second calculation's.
fn same_figures(quote: &Quote, second: &Second) -> bool {
    let size = quote.plan.parts.size;
    (0..size.ports).all(|p| {
        quote.port_delay(p) == second.delay(p) && quote.port_backlog(p) == second.backlog(p)
    }) && (0..size.flows).all(|f| quote.flow_delay(f) == second.flow_delay(f))
}

// Whether the library's fault is the one that the second calculation calls for.
fn same_fault(fault: SheetFault, second: Fault) -> bool {
    match (fault, second) {
        (SheetFault::Table(TableFault::Low(cell)), Fault::Low(at)) => cell == at,
        (SheetFault::Table(TableFault::Crowded(place)), Fault::Crowded(at)) => place == at,
        (SheetFault::Table(TableFault::Climbs(_)), Fault::Climbing) => true,
        (SheetFault::Plan(PlanFault::Rates(port)), Fault::Overloaded(at)) => port == at,
        _ => false,
    }
}

// Whether the library answers a plan file as the second calculation does.
fn compare(bytes: &[u8], answer: Result<(), Fault>, second: &Second) -> Verdict {
    match (quote_of(bytes), answer) {
        (Ok(quote), Ok(())) => judged(same_figures(&quote, second)),
        (Err(SheetFault::Table(TableFault::Rounds)), _) => Verdict::Undecided,
        (Err(fault), Err(other)) => judged(same_fault(fault, other)),
        _ => Verdict::Differing,
    }
}

fn compare_draft(draft: &Draft, answer: Result<(), Fault>, second: &Second) -> Verdict {
    let mut place = [0; 4453];
    match encode(draft, &mut place) {
        Some(size) => compare(&place[..size], answer, second),
        None => Verdict::Differing,
    }
}

// Counts a kit, and tells what the comparison came to.
fn count(tally: &mut Tally, draft: &Draft) -> Verdict {
    let mut second = Second::new(&draft.parts);
    let answer = second.judge(draft);
    let verdict = compare_draft(draft, answer, &second);
    let counter = match (verdict, answer) {
        (Verdict::Undecided, _) => &mut tally.undecided,
        (Verdict::Differing, _) => &mut tally.differing,
        (Verdict::Same, Ok(())) => &mut tally.accepted,
        (Verdict::Same, Err(Fault::Low(_))) => &mut tally.low,
        (Verdict::Same, Err(Fault::Crowded(_))) => &mut tally.crowded,
        (Verdict::Same, Err(Fault::Climbing)) => &mut tally.climbing,
        (Verdict::Same, Err(Fault::Overloaded(_))) => &mut tally.overloaded,
    };
    *counter = counter.saturating_add(1);
    verdict
}

fn main(rt: HostRuntime) -> io::Result<()> {
    let mut seed = Seed::new(20261117);
    let mut rings = Tally::default();
    let mut nets = Tally::default();
    let mut proposals = Tally::default();
    // The number names a kit that differs.
    for i in 0..200u32 {
        if count(&mut rings, &seed.ring()) == Verdict::Differing {
            println!(rt; "ring {i} differs")?;
        }
        let net = seed.net();
        if count(&mut nets, &net) == Verdict::Differing {
            println!(rt; "net {i} differs")?;
        }
        if count(&mut proposals, &seed.proposal(net)) == Verdict::Differing {
            println!(rt; "proposal {i} differs")?;
        }
    }
    println!(rt; "rings: {rings}")?;
    println!(rt; "nets: {nets}")?;
    println!(rt; "proposals: {proposals}")
}
