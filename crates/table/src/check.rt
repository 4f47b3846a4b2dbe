// The check of a table: no fault exactly where it is accepted, else the first.
ghost use Rattle.std.specs.Prelude.{◌≡◌, ◌<◌, slice_index};
ghost use Rattle.refusal.specs.Firsts.{and_then};
ghost use Rattle.table.specs.Accepts.{Judged};
ghost use Rattle.table.specs.Checks.{cell_within, cells_answer, cells_in, crowds_answer, lows_answer, lows_by, table_answer};
ghost use Rattle.table.specs.Quotes.{Exactly, quote_answer, told};

use crate::crowds::crowds_by;
use crate::fault::TableFault;
use crate::quotes::Quote;
use crate::reckons::reckon;
use crate::routes::{Route, route_of};
use crate::times::PortTimes;
use draft::limits::MOST_CELL;
use draft::{Proposal, Row, Table};
use plan::Plan;

impl Route<'_> {
    // Whether its cell at hop k is within the limit where it is used, and else 0.
    fn cell_fits(&self, k: usize, cell: u32) -> bool
        ensures { result ≡ cell_within self.now.flow.now k cell }
    {
        if k < self.hops() {
            cell <= MOST_CELL
        } else {
            cell == 0
        }
    }

    // The first of its cells that does not fit.
    fn cells_in(&self, row: &Row) -> Result<(), TableFault>
        ensures { result ≡ cells_in self.now.number self.now.flow.now row.now }
    {
        for (k, cell) in row.cells.iter().enumerate() {
            if !self.cell_fits(k, *cell) {
                return Err(TableFault::Cell(self.place(k)));
            }
        }
        Ok(())
    }
}

// The first cell that does not fit.
fn cells(plan: &Plan, table: &Table) -> Result<(), TableFault>
    ensures { result ≡ cells_answer plan.now.parts table.now }
{
    let rows = &table.rows[..plan.parts.size.flows];
    for (f, row) in rows.iter().enumerate() {
        route_of(plan, f).cells_in(row)?;
    }
    Ok(())
}

// The first cell below its need, by the gaps of the ports.
fn lows(plan: &Plan, table: &Table, gaps: &PortTimes) -> Result<(), TableFault>
    ensures { result ≡ lows_by plan.now.parts gaps.now.slots table.now }
{
    let mut answer = Ok(());
    let rows = &table.rows[..plan.parts.size.flows];
    'search: for (f, row) in rows.iter().enumerate() {
        let route = route_of(plan, f);
        let mut need = u64::from(route.flow.burst);
        let used = &row.cells[..route.hops()];
        for (k, cell) in used.iter().enumerate() {
            let cell = u64::from(*cell);
            if cell < need {
                answer = Err(TableFault::Low(route.place(k)));
                break 'search;
            }
            need = route.need_after(gaps, cell, k);
        }
    }
    answer
}

// The first cell below its need, else the first crowded port or regulator, by figures reckoned once.
fn needs(plan: &Plan, table: &Table) -> Result<(), TableFault>
    ensures { result ≡ and_then (lows_answer plan.now.parts table.now) (crowds_answer plan.now.parts table.now) }
{
    let figures = reckon(plan, table);
    lows(plan, table, &figures.gaps)?;
    crowds_by(plan, &figures)
}

// The first fault of the table.
fn first_fault(plan: &Plan, table: &Table) -> Result<(), TableFault>
    ensures { result ≡ table_answer plan.now.parts table.now }
{
    cells(plan, table)?;
    needs(plan, table)
}

// The first fault of the table, and none exactly where it is accepted.
fn check(plan: &Plan, table: Table) -> Result<(), TableFault>
    ensures answer { result ≡ table_answer plan.now.parts table }
    ensures exact { Judged plan.now.parts table result }
{
    first_fault(plan, &table)
}

// The plan's quote by the proposed table, or the first fault of the proposal.
pub fn quote(plan: Plan, proposal: Proposal) -> Result<Quote, TableFault>
    ensures answer { told result ≡ quote_answer plan.parts proposal }
    ensures exact { Exactly plan.parts proposal result }
{
    if proposal.rows != plan.parts.size.flows {
        return Err(TableFault::Rows(proposal.rows));
    }
    check(&plan, proposal.table)?;
    Ok(Quote {
        plan,
        table: proposal.table,
        rounds: 0,
    })
}
