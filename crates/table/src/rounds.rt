// One round towards the least table.
ghost use Rattle.std.specs.Prelude.{◌≡◌, ℕ, ◌+◌, ◌*◌, ◌<◌, ◌≤◌, true, is_ok, if◌then◌else◌, slice_index};
ghost use Rattle.draft.specs.Plans.{hops};
ghost use Rattle.table.specs.Bounds.{most_row};
ghost use Rattle.table.specs.Loads.{load, load_in};
ghost use Rattle.table.specs.Rounds.{Shaped, Tidy, climb, climb_in, gives, made_by, made_row, same_row, still_by};

use crate::fault::TableFault;
use crate::loads::PortLoads;
use crate::routes::{Route, route_of};
use crate::times::PortTimes;
use draft::limits::{MOST_CELL, MOST_FLOWS};
use draft::{Row, Table};
use plan::Plan;

impl Route<'_> {
    // Makes its cells and adds each to the load of its port.
    // Tells whether they were the same before, yes or no and nothing beside it; or the first whose need passes the limit.
    fn make_row(
        &self,
        gaps: &PortTimes,
        row: &mut Row,
        sums: &mut PortLoads,
    ) -> Result<bool, TableFault>
        requires tidy { Tidy self.now.flow.now row.old }
        requires room { (p : ℕ) → p < 32 → slice_index sums.old.bits p ≤ 63 * most_row }
        ensures answer { result ≡ gives (climb_in self.now.number self.now.flow.now gaps.now.slots) (same_row self.now.flow.now gaps.now.slots row.old (hops self.now.flow.now)) }
        ensures after { is_ok result ≡ true → row.new ≡ made_row self.now.flow.now gaps.now.slots }
        ensures loads { is_ok result ≡ true → (p : ℕ) → p < 32 → slice_index sums.new.bits p ≡ slice_index sums.old.bits p + load_in self.now.flow.now (made_row self.now.flow.now gaps.now.slots) p (hops self.now.flow.now) }
        ensures most { is_ok result ≡ true → (p : ℕ) → p < 32 → slice_index sums.new.bits p ≤ slice_index sums.old.bits p + most_row }
    {
        let before = row.cells;
        let mut need = u64::from(self.flow.burst);
        // by the hop, since place, port and next need go by it, and the cells are written
        for k in 0..self.hops() {
            if need > u64::from(MOST_CELL) {
                return Err(TableFault::Climbs(self.place(k)));
            }
            row.cells[k] = need as u32;
            sums.add(usize::from(self.flow.path.ports[k]), need);
            need = self.need_after(gaps, need, k);
        }
        Ok(row.cells == before)
    }
}

// Each cell of these rows becomes its need, by the gaps of their table; the sums become the loads of the table made.
// Tells whether nothing changed, by a truth value that is gathered with `&=`, or the first need that passes the limit.
fn make_rows(
    plan: &Plan,
    gaps: &PortTimes,
    rows: &mut [Row; MOST_FLOWS],
    sums: &mut PortLoads,
) -> Result<bool, TableFault>
    requires shape { Shaped plan.now.parts (record { rows = rows.old }) }
    requires empty { (p : ℕ) → p < 32 → slice_index sums.old.bits p ≡ 0 }
    ensures answer { result ≡ gives (climb plan.now.parts gaps.now.slots) (still_by plan.now.parts gaps.now.slots (record { rows = rows.old }) plan.now.parts.size.flows) }
    ensures after { is_ok result ≡ true → record { rows = rows.new } ≡ made_by plan.now.parts gaps.now.slots }
    ensures loads { is_ok result ≡ true → (p : ℕ) → p < 32 → slice_index sums.new.bits p ≡ load plan.now.parts (made_by plan.now.parts gaps.now.slots) p }
{
    let mut still = true;
    let used = &mut rows[..plan.parts.size.flows];
    for (f, row) in used.iter_mut().enumerate() {
        still &= route_of(plan, f).make_row(gaps, row, sums)?;
    }
    Ok(still)
}

// Each cell becomes its need, by the gaps of the table before, which is passed by value; the made one is changed in place.
// Tells whether nothing changed, or the first need that passes the limit, and then the table before is put back.
// The sums become the loads of the table made. A truth value, since its one caller asks it by an if.
pub(crate) fn round(
    plan: &Plan,
    table: Table,
    gaps: &PortTimes,
    made: &mut Table,
    sums: &mut PortLoads,
) -> Result<bool, TableFault>
    requires shape { Shaped plan.now.parts table }
    requires same { made.old ≡ table }
    requires empty { (p : ℕ) → p < 32 → slice_index sums.old.bits p ≡ 0 }
    ensures answer { result ≡ gives (climb plan.now.parts gaps.now.slots) (still_by plan.now.parts gaps.now.slots table plan.now.parts.size.flows) }
    ensures after { made.new ≡ (if is_ok result then made_by plan.now.parts gaps.now.slots else table) }
    ensures loads { is_ok result ≡ true → (p : ℕ) → p < 32 → slice_index sums.new.bits p ≡ load plan.now.parts (made_by plan.now.parts gaps.now.slots) p }
{
    let still = make_rows(plan, gaps, &mut made.rows, sums);
    if still.is_err() {
        *made = table;
    }
    still
}
