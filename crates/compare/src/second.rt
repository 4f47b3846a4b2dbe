// The second calculation: cells are raised one at a time, from the last back, until none is below its need.
use draft::limits::{MOST_FLOWS, MOST_HOPS};
use draft::{Draft, Flow, Parts};

// Why a kit has no quote; places are those of the refusal.
#[derive(Clone, Copy, Debug, PartialEq, Eq)]
pub enum Fault {
    Low(usize),
    Crowded(usize),
    Climbing,
    Overloaded(usize),
}

// A plan with its cells, flow by flow and hop by hop.
#[derive(Clone, Copy)]
pub struct Second {
    parts: Parts,
    cells: [[u64; MOST_HOPS]; MOST_FLOWS],
}

// No cell may pass this.
const LIMIT: u64 = 1_000_000_000;

// The least whole number of slots in which a rate covers the bits.
fn slots(rate: u64, bits: u64) -> u64 {
    if rate == 0 {
        return 0;
    }
    let whole = bits / rate;
    if whole.saturating_mul(rate) < bits {
        whole.saturating_add(1)
    } else {
        whole
    }
}

impl Second {
    pub fn new(parts: &Parts) -> Second {
        Second {
            parts: *parts,
            cells: [[0; MOST_HOPS]; MOST_FLOWS],
        }
    }

    fn cell(&self, f: usize, k: usize) -> u64 {
        self.cells
            .get(f)
            .and_then(|row| row.get(k))
            .copied()
            .unwrap_or(0)
    }

    // A weight of each flow and hop at which a port is crossed, summed.
    fn sum_at<F: Fn(usize, usize) -> u64>(&self, port: usize, weight: F) -> u64
        requires { F.IsAlwaysCallable weight }
    {
        let mut sum = 0u64;
        for (f, flow) in self.parts.flows().iter().enumerate() {
            for (k, crossed) in flow.path.crossed().iter().enumerate() {
                if usize::from(*crossed) == port {
                    sum = sum.saturating_add(weight(f, k));
                }
            }
        }
        sum
    }

    // The cells of the flows that cross a port, summed.
    fn load(&self, port: usize) -> u64 {
        self.sum_at(port, |f, k| self.cell(f, k))
    }

    // Their rates, summed.
    fn rates(&self, port: usize) -> u64 {
        let flows = self.parts.flows();
        self.sum_at(port, |f, _k| {
            flows.get(f).map_or(0, |flow| u64::from(flow.rate))
        })
    }

    pub fn delay(&self, port: usize) -> u64 {
        match self.parts.ports.get(port) {
            Some(figures) => u64::from(figures.latency).saturating_add(slots(
                u64::from(figures.rate),
                self.load(port),
            )),
            None => 0,
        }
    }

    pub fn backlog(&self, port: usize) -> u64 {
        self.load(port)
            .saturating_add(self.rates(port).saturating_mul(self.delay(port)))
    }

    pub fn flow_delay(&self, f: usize) -> u64 {
        let Some(flow) = self.parts.flows().get(f) else {
            return 0;
        };
        let mut sum = 0u64;
        for port in flow.path.crossed() {
            sum = sum
                .saturating_add(self.delay(usize::from(*port)))
                .saturating_add(1);
        }
        sum.saturating_sub(1)
    }

    // What a cell must hold at the least, by the cells as they are.
    fn need(&self, f: usize, flow: &Flow, k: usize) -> u64 {
        if k == 0 || flow.mask.has(k) {
            return u64::from(flow.burst);
        }
        let Some(port) = flow.path.crossed().get(k - 1) else {
            return 0;
        };
        let Some(figures) = self.parts.ports.get(usize::from(*port)) else {
            return 0;
        };
        let spread = self
            .delay(usize::from(*port))
            .saturating_sub(u64::from(figures.stay));
        self.cell(f, k - 1)
            .saturating_add(u64::from(flow.rate).saturating_mul(spread))
    }

    // Raises one cell to its need; tells whether it was below, and nothing else is to be told.
    fn raise(&mut self, f: usize, flow: &Flow, k: usize) -> bool {
        let need = self.need(f, flow, k);
        let Some(row) = self.cells.get_mut(f) else {
            return false;
        };
        let Some(cell) = row.get_mut(k) else {
            return false;
        };
        if *cell >= need {
            return false;
        }
        *cell = need;
        true
    }

    // Raises every cell once, the last first; tells whether one was below its need, and nothing else is to be told.
    fn sweep(&mut self) -> bool {
        let parts = self.parts;
        let mut raised = false;
        // By flow and hop: a cell's need is asked of the whole before it is written.
        for (f, flow) in parts.flows().iter().enumerate().rev() {
            for k in (0..flow.path.crossed().len()).rev() {
                if self.raise(f, flow, k) {
                    raised = true;
                }
            }
        }
        raised
    }

    // Raises cells until none is below its need, or one passes the limit.
    fn settle(&mut self) -> Result<(), Fault> {
        for _ in 0..1_000_000u32 {
            if !self.sweep() {
                return Ok(());
            }
            if self.climbs() {
                return Err(Fault::Climbing);
            }
        }
        Err(Fault::Climbing)
    }

    // Whether a cell passes the limit.
    fn climbs(&self) -> bool {
        self.cells
            .iter()
            .any(|row| row.iter().any(|cell| *cell > LIMIT))
    }

    // The first port whose rate is passed.
    fn check_rates(&self) -> Result<(), Fault> {
        for (p, port) in self.parts.ports().iter().enumerate() {
            if self.rates(p) > u64::from(port.rate) {
                return Err(Fault::Overloaded(p));
            }
        }
        Ok(())
    }

    // The first proposed cell below its need; by flow and hop, as needs are asked.
    fn check_needs(&self) -> Result<(), Fault> {
        for (f, flow) in self.parts.flows().iter().enumerate() {
            for k in 0..flow.path.crossed().len() {
                if self.cell(f, k) < self.need(f, flow, k) {
                    return Err(Fault::Low(f * 8 + k));
                }
            }
        }
        Ok(())
    }

    // The slots since the last bucket before hop k, that of a regulator or of the source.
    fn stretch(&self, flow: &Flow, k: usize) -> u64 {
        let mut sum = 0u64;
        for (j, port) in flow.path.crossed().iter().take(k).enumerate().rev() {
            sum = sum
                .saturating_add(self.delay(usize::from(*port)))
                .saturating_add(1);
            if flow.mask.has(j) {
                return sum;
            }
        }
        sum
    }

    // The first port with more than 32 frames.
    fn check_lines(&self) -> Result<(), Fault> {
        for (p, port) in self.parts.ports().iter().enumerate() {
            if self.backlog(p) / u64::from(port.shortest).max(1) > 32 {
                return Err(Fault::Crowded(p));
            }
        }
        Ok(())
    }

    // The first regulator with more than 16 frames; by flow and hop, as masks are asked.
    fn check_regulators(&self) -> Result<(), Fault> {
        for (f, flow) in self.parts.flows().iter().enumerate() {
            for k in 0..flow.path.crossed().len() {
                if flow.mask.has(k) && self.waiting(flow, k) > 16 {
                    return Err(Fault::Crowded(32 + f * 8 + k));
                }
            }
        }
        Ok(())
    }

    // How many frames may wait in a regulator.
    fn waiting(&self, flow: &Flow, k: usize) -> u64 {
        let bits = u64::from(flow.burst).saturating_add(u64::from(flow.rate).saturating_mul(
            self.stretch(flow, k),
        ));
        bits / u64::from(flow.shortest).max(1)
    }

    fn propose(&mut self, draft: &Draft) {
        for (cells, row) in self.cells.iter_mut().zip(&draft.proposal.table.rows) {
            for (cell, proposed) in cells.iter_mut().zip(&row.cells) {
                *cell = u64::from(*proposed);
            }
        }
    }

    // Proposes these cells as rows.
    pub fn lay(&self, draft: &mut Draft) {
        for (row, cells) in draft.proposal.table.rows.iter_mut().zip(&self.cells) {
            for (proposed, cell) in row.cells.iter_mut().zip(cells) {
                *proposed = (*cell).min(LIMIT) as u32;
            }
        }
        draft.proposal.rows = self.parts.flows().len();
    }

    // How the kit comes out: by its rows where it proposes any, else by raising.
    pub fn judge(&mut self, draft: &Draft) -> Result<(), Fault> {
        self.check_rates()?;
        if draft.proposal.rows == 0 {
            self.settle()?;
        } else {
            self.propose(draft);
            self.check_needs()?;
        }
        self.check_lines()?;
        self.check_regulators()
    }
}
