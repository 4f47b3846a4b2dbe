// The search for the least table.
ghost use Rattle.std.specs.Prelude.{◌≡◌, ◌≤◌, true, ◌++◌, length, drop, OnOk};
ghost use Rattle.table.specs.Checks.{accepts};
ghost use Rattle.table.specs.Leasts.{Shown, Sought};
ghost use Rattle.table.specs.Quotes.{LeastOrNone, flat, least_answer, rounds_answer, scratch_after, told};
ghost use Rattle.table.specs.Rounds.{find, rounds_told, start, start_row};

use crate::crowds::crowds;
use crate::fault::TableFault;
use crate::loads::PortLoads;
use crate::quotes::Quote;
use crate::reckons::{reckon, set_gaps};
use crate::rounds::round;
use crate::routes::{Route, route_of};
use draft::limits::{MOST_HOPS, MOST_ROUNDS, TABLE_CELLS};
use draft::{Row, Table};
use plan::Plan;

impl Route<'_> {
    // Each of its used cells at its burst.
    fn start_row(&self) -> Row
        ensures { result ≡ start_row self.now.flow.now }
    {
        let mut cells = [0; MOST_HOPS];
        cells[..self.hops()].fill(self.flow.burst);
        Row { cells }
    }
}

// Each used cell at the flow's burst.
fn start(plan: &Plan) -> Table
    ensures { result ≡ start plan.now.parts }
{
    let mut rows = Table::empty().rows;
    let used = &mut rows[..plan.parts.size.flows];
    for (f, row) in used.iter_mut().enumerate() {
        *row = route_of(plan, f).start_row();
    }
    Table { rows }
}

// The rounds, until one changes nothing: how many they are, and the last table made.
fn find(plan: &Plan, allowed: u32, table: &mut Table) -> Result<u32, TableFault>
    requires { table.old ≡ start plan.now.parts }
    ensures table { table.new ≡ (find plan.now.parts allowed).table }
    ensures answer { result ≡ rounds_told (find plan.now.parts allowed) }
    ensures sought { Sought plan.now.parts table.new result }
{
    let mut gaps = reckon(plan, table).gaps;
    // the number is that of the rounds
    for done in 0..allowed {
        let before = *table;
        let mut sums = PortLoads::none();
        if round(plan, before, &gaps, table, &mut sums)? {
            return Ok(done + 1);
        }
        set_gaps(plan, &sums, &mut gaps);
    }
    Err(TableFault::Rounds)
}

// The rounds that make the least table, or why there is none; and the last table made.
fn seek(plan: &Plan, allowed: u32, table: &mut Table) -> Result<u32, TableFault>
    requires { table.old ≡ start plan.now.parts }
    ensures table { table.new ≡ (find plan.now.parts allowed).table }
    ensures answer { result ≡ rounds_answer plan.now.parts (find plan.now.parts allowed) }
    ensures shown { Shown plan.now.parts table.new result }
    ensures accepted { OnOk result (accepts plan.now.parts table.new ≡ true) }
{
    let rounds = find(plan, allowed, table)?;
    crowds(plan, table)?;
    Ok(rounds)
}

// The table's cells, row after row, at the scratch's front.
fn lay(table: &Table, scratch: &mut [u64])
    requires { 512 ≤ length scratch.old }
    ensures { scratch.new ≡ flat table.now ++ drop 512 scratch.old }
{
    // by the cell's number: of a slice written through a zip nothing is known afterwards
    for (f, row) in table.rows.iter().enumerate() {
        for (k, cell) in row.cells.iter().enumerate() {
            scratch[f * MOST_HOPS + k] = u64::from(*cell);
        }
    }
}

// The plan's quote by the least table, found within the rounds allowed.
// The first 512 numbers of the scratch then hold the last table made, row after row.
pub fn least(plan: Plan, rounds: u32, scratch: &mut [u64]) -> Result<Quote, TableFault>
    ensures answer { told result ≡ least_answer plan.parts rounds (length scratch.old) }
    ensures after { scratch.new ≡ scratch_after plan.parts rounds scratch.old }
    ensures least { LeastOrNone plan.parts result }
{
    if rounds < 1 || rounds > MOST_ROUNDS {
        return Err(TableFault::Rounds);
    }
    if scratch.len() < TABLE_CELLS {
        return Err(TableFault::Scratch);
    }
    let mut table = start(&plan);
    let found = seek(&plan, rounds, &mut table);
    lay(&table, scratch);
    Ok(Quote {
        plan,
        table,
        rounds: found?,
    })
}
