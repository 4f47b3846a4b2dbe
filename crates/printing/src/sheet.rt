// The sheet of a plan file: the quote's lines, or the line that says no.
ghost use Rattle.std.specs.Prelude.{◌≡◌, ◌<◌, ◌≤◌, [], ◌∷◌, length, IfOk, Ok, Err, MatchResult, codes};
ghost use Rattle.table.specs.Quotes.{least_answer, told};
ghost use Rattle.printing.specs.Lines.{line};
ghost use Rattle.printing.specs.Prints.{Printed};
ghost use Rattle.printing.specs.Sheets.{draft_quote, no_line, place_after, print_answer, quote_sheet, quoted, sheet_quote};

use crate::fault::SheetFault;
use crate::text::line;
use draft::limits::{MOST_ROUNDS, TABLE_CELLS};
use line::Queue;
use plan::{Plan, Planned};
use refusal::Refusal;
use table::{Quote, TableFault, least, quote};

// The least place for a sheet, in bytes: the longest sheet fits.
const LEAST_PLACE: usize = 4096;

// The least table's quote, with all the rounds there may be.
fn least_of(plan: Plan) -> Result<Quote, TableFault>
    ensures { told result ≡ least_answer plan.parts 100000 512 }
{
    let mut scratch = [0; TABLE_CELLS];
    least(plan, MOST_ROUNDS, &mut scratch)
}

// By the rows where any are proposed, else by the least table.
fn quote_by(planned: Planned) -> Result<Quote, TableFault>
    ensures { told result ≡ draft_quote (record { parts = planned.plan.parts; proposal = planned.proposal }) }
{
    if planned.proposal.rows == 0 {
        least_of(planned.plan)
    } else {
        quote(planned.plan, planned.proposal)
    }
}

// The quote of a plan file, or its first refusal: the file's, then the plan's, then the table's.
pub fn quote_of(bytes: &[u8]) -> Result<Quote, SheetFault>
    ensures { MatchResult result (λ q. sheet_quote bytes.now ≡ Ok (quoted q)) (λ e. sheet_quote bytes.now ≡ Err e) }
{
    let planned = Planned::read(bytes)?;
    Ok(quote_by(planned)?)
}

// The line that says no.
fn no_line(out: &mut Queue<u8>, refusal: Refusal)
    ensures after { Printed out.old (no_line refusal) out.new }
    ensures short { length (no_line refusal) ≤ LEAST_PLACE }
{
    let layer = u64::from(refusal.layer);
    let number = u64::from(refusal.number);
    line(out, b"NO", &[layer, number, refusal.place]);
}

// The line of a port, whose number is below 32 as a plan's are; as parameters its figures are known to be 64-bit numbers, and so how long they are printed.
fn port_line(out: &mut Queue<u8>, p: usize, delay: u64, backlog: u64)
    requires { p < 32 }
    ensures after { Printed out.old (line (codes "PORT") (p ∷ delay ∷ backlog ∷ [])) out.new }
    ensures short { length (line (codes "PORT") (p ∷ delay ∷ backlog ∷ [])) ≤ 50 }
{
    line(out, b"PORT", &[p as u64, delay, backlog]);
}

// The sheet of a quote.
fn lines(out: &mut Queue<u8>, quote: &Quote)
    ensures after { Printed out.old (quote_sheet (quoted quote.now)) out.new }
    ensures short { length (quote_sheet (quoted quote.now)) ≤ LEAST_PLACE }
{
    let size = quote.plan.parts.size;
    let figures = quote.figures();
    line(
        out,
        b"KIT",
        &[
            size.ports as u64,
            size.flows as u64,
            u64::from(quote.rounds),
        ],
    );
    for (p, port) in figures.ports[..size.ports].iter().enumerate() {
        port_line(out, p, port.delay, port.backlog);
    }
    for (f, delay) in figures.flows[..size.flows].iter().enumerate() {
        line(out, b"FLOW", &[f as u64, *delay]);
    }
}

// The sheet of a plan file at the front of the place; tells how many bytes it has.
pub fn print(bytes: &[u8], place: &mut [u8]) -> Result<usize, SheetFault>
    ensures answer { result ≡ print_answer bytes.now (length place.old) }
    ensures after { place.new ≡ place_after bytes.now place.old }
    ensures within { IfOk result (λ n. n ≤ length place.old) }
{
    if place.len() < LEAST_PLACE {
        return Err(SheetFault::Place);
    }
    let mut out = Queue::new(place);
    match quote_of(bytes) {
        Ok(quote) => lines(&mut out, &quote),
        Err(fault) => no_line(&mut out, Refusal::from(fault)),
    }
    Ok(out.len())
}
