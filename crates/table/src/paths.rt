// Needs, stretches and delays of routes by the times of ports.
ghost use Rattle.std.specs.Prelude.{◌≡◌, ◌+◌, ◌-◌, ◌*◌, ◌<◌, ◌≤◌, slice_index};
ghost use Rattle.draft.specs.Plans.{hop_port, hops};
ghost use Rattle.table.specs.Bounds.{most_delay, most_stretch};
ghost use Rattle.table.specs.Paths.{delay_along, need_after, stretch_after};

use crate::routes::Route;
use crate::times::PortTimes;

impl PortTimes {
    // The time at the port of hop k.
    fn at_hop(&self, route: &Route, k: usize) -> u64
        requires { k < hops route.now.flow.now }
        ensures value { result ≡ slice_index self.now.slots (hop_port route.now.flow.now k) }
        ensures few { result ≤ most_delay }
    {
        self.slots[usize::from(route.flow.path.ports[k])]
    }
}

impl Route<'_> {
    // What it adds to its burst over a gap.
    fn growth(&self, gap: u64) -> u64
        requires { gap ≤ most_delay }
        ensures value { result ≡ self.now.flow.now.rate * gap }
        ensures few { result ≤ 10000 * most_delay }
    {
        u64::from(self.flow.rate) * gap
    }

    // The need of hop k + 1, by the cell of hop k.
    pub(crate) fn need_after(&self, gaps: &PortTimes, before: u64, k: usize) -> u64
        requires before { before ≤ 4294967295 }
        requires hop { k < hops self.now.flow.now }
        ensures { result ≡ need_after self.now.flow.now gaps.now.slots before k }
    {
        if self.flow.mask.has(k + 1) {
            return u64::from(self.flow.burst);
        }
        before + self.growth(gaps.at_hop(self, k))
    }

    // The stretch up to hop k + 1, by the one up to hop k.
    pub(crate) fn stretch_after(&self, delays: &PortTimes, before: u64, k: usize) -> u64
        requires before { before ≤ most_stretch }
        requires hop { k < hops self.now.flow.now }
        ensures value { result ≡ stretch_after self.now.flow.now delays.now.slots before k }
        ensures few { result ≤ before + (most_delay + 1) }
    {
        let more = delays.at_hop(self, k) + 1;
        if self.flow.mask.has(k) {
            more
        } else {
            before + more
        }
    }

    // D along the path, summed.
    fn delay_along(&self, delays: &PortTimes) -> u64
        ensures value { result ≡ delay_along self.now.flow.now delays.now.slots (hops self.now.flow.now) }
        ensures few { result ≤ 8 * most_delay }
    {
        let mut sum = 0;
        // by the hop, at which the time is asked; a `sum` over the ports would have to show its bound again
        for k in 0..self.hops() {
            sum += delays.at_hop(self, k);
        }
        sum
    }

    // D along the path and a slot between two hops, summed.
    pub(crate) fn delay(&self, delays: &PortTimes) -> u64
        ensures { result ≡ delay_along self.now.flow.now delays.now.slots (hops self.now.flow.now) + (hops self.now.flow.now - 1) }
    {
        self.delay_along(delays) + (self.hops() as u64 - 1)
    }
}
