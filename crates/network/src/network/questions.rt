// Questions: what the network and its cabinet tell, and change nothing by it.
ghost use Rattle.std.specs.Prelude.{◌≡◌, length};
ghost use Rattle.cabinet.specs.Model.{frame_in};
ghost use Rattle.network.specs.Questions.{NumberOf, RegulatorOf, port_figures, regulator_level, regulator_line};
ghost use Rattle.network.specs.Views.{net_of};

use super::Network;
use cabinet::Cabinet;
use draft::Port;
use regulator::Regulator;
use service::Frame;

// Those about ports are its cabinet's, asked one by one: a trait is not handed on as a whole.
impl<C: Cabinet> Network<C> {
    // Whether it is open.
    pub fn is_open(&self) -> bool
        ensures { result ≡ (net_of C.Cabinet.model self.now).is_open }
    {
        self.open
    }

    // The slot it is in.
    pub fn slot(&self) -> u64
        ensures { result ≡ (net_of C.Cabinet.model self.now).state.slot }
    {
        self.cabinet.slot()
    }

    // How many ports there are.
    pub fn ports(&self) -> usize
        ensures { result ≡ (net_of C.Cabinet.model self.now).parts.size.ports }
    {
        self.cabinet.ports()
    }

    // A port's rate, latency, least stay and shortest frame.
    pub fn figures(&self, port: usize) -> Port
        ensures { result ≡ port_figures (net_of C.Cabinet.model self.now) port }
    {
        self.cabinet.figures(port)
    }

    // A port's finish.
    pub fn finish(&self, port: usize) -> u64
        ensures { result ≡ (net_of C.Cabinet.model self.now).state.finish port }
    {
        self.cabinet.finish(port)
    }

    // How many frames wait at a port.
    pub fn waiting(&self, port: usize) -> usize
        ensures { result ≡ length ((net_of C.Cabinet.model self.now).state.line port) }
    {
        self.cabinet.waiting(port)
    }

    // The i-th frame that waits at a port, counted from the first.
    pub fn frame(&self, port: usize, i: usize) -> Option<Frame>
        ensures { result ≡ frame_in ((net_of C.Cabinet.model self.now).state.line port) i }
    {
        self.cabinet.frame(port, i)
    }

    // A flow's level.
    pub fn level(&self, flow: usize) -> u32
        ensures { result ≡ (net_of C.Cabinet.model self.now).state.level flow 0 }
    {
        if flow < self.plan.parts.size.flows {
            let kept = self.sources[flow].level;
            kept.min(self.plan.parts.flows[flow].burst)
        } else {
            0
        }
    }

    // The number of the regulator before a hop of a flow, or none.
    pub(crate) fn number(&self, flow: usize, hop: usize) -> Option<usize>
        ensures { NumberOf self.now.plan.parts flow hop result }
    {
        if flow >= self.plan.parts.size.flows {
            return None;
        }
        let mask = self.plan.parts.flows[flow].mask;
        if mask.has(hop) {
            Some(self.sources[flow].first + mask.before(hop) as usize)
        } else {
            None
        }
    }

    // The regulator before a hop of a flow, or none.
    fn regulator(&self, flow: usize, hop: usize) -> Option<&Regulator>
        ensures { RegulatorOf self.now.plan.parts self.now.regulators flow hop result }
    {
        let n = self.number(flow, hop)?;
        Some(&self.regulators[n])
    }

    // A regulator's level.
    pub fn regulator_level(&self, flow: usize, hop: usize) -> u32
        ensures { result ≡ regulator_level (net_of C.Cabinet.model self.now) flow hop }
    {
        match self.regulator(flow, hop) {
            Some(regulator) => regulator.level.min(self.plan.parts.flows[flow].burst),
            None => 0,
        }
    }

    // How many frames wait at a regulator.
    pub fn regulator_waiting(&self, flow: usize, hop: usize) -> usize
        ensures { result ≡ length (regulator_line (net_of C.Cabinet.model self.now) flow hop) }
    {
        self.regulator(flow, hop)
            .map_or(0, |regulator| regulator.len())
    }

    // The i-th frame that waits at a regulator, counted from the first.
    pub fn regulator_frame(&self, flow: usize, hop: usize, i: usize) -> Option<Frame>
        ensures { result ≡ frame_in (regulator_line (net_of C.Cabinet.model self.now) flow hop) i }
    {
        self.regulator(flow, hop)?.frame(i)
    }
}
