// What a plan file says, before any limit is checked.
ghost use Rattle.std.specs.Prelude.{◌≡◌, replicate};
ghost use Rattle.draft.specs.Plans.{blank_flow, empty_draft, empty_parts, no_proposal};

use crate::flow::Flow;
use crate::limits::{MOST_FLOWS, MOST_HOPS, MOST_PORTS};
use crate::mask::Mask;
use crate::parts::{Parts, Size};
use crate::path::Path;
use crate::port::Port;
use crate::table::{Proposal, Table};

// Ports, flows and proposed rows as a file gives them.
#[derive(Clone, Copy)]
pub struct Draft {
    pub parts: Parts,
    pub proposal: Proposal,
}

// A flow of which nothing is known.
const NO_FLOW: Flow = Flow {
    rate: 0,
    burst: 0,
    shortest: 0,
    longest: 0,
    path: Path {
        hops: 0,
        ports: [0; MOST_HOPS],
    },
    mask: Mask { bits: 0 },
};

static NO_FLOWS: [Flow; MOST_FLOWS] = [NO_FLOW; MOST_FLOWS];

// The flows of an empty plan, where they stand: they are copied in one go, which a `Default` of each would not be.
fn no_flows() -> &'static [Flow; MOST_FLOWS]
    ensures { result.now ≡ replicate 64 blank_flow }
{
    &NO_FLOWS
}

impl Parts {
    // No port and no flow.
    pub fn empty() -> Parts
        ensures { result ≡ empty_parts }
    {
        Parts {
            ports: [Port::default(); MOST_PORTS],
            flows: *no_flows(),
            size: Size { ports: 0, flows: 0 },
        }
    }
}

impl Proposal {
    // No row.
    pub fn none() -> Proposal
        ensures { result ≡ no_proposal }
    {
        Proposal {
            table: Table::empty(),
            rows: 0,
        }
    }
}

impl Draft {
    // No port, no flow and no row.
    pub fn empty() -> Draft
        ensures { result ≡ empty_draft }
    {
        Draft {
            parts: Parts::empty(),
            proposal: Proposal::none(),
        }
    }
}
