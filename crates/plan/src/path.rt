// What a path keeps, and which ports it crosses.
ghost use Rattle.std.specs.Prelude.{◌≡◌, ◌<◌, ◌≤◌, not, ◌&&◌, ◌==◌, nat_lt};
ghost use Rattle.draft.specs.Plans.{hop_port, hops};
ghost use Rattle.plan.specs.Checks.{byte_fits, first_visit, path_fits};
ghost use Rattle.plan.specs.Limits.{crosses};

use draft::Flow;
use draft::limits::{MOST_HOPS, UNUSED};

// Here and in `flows` a hop's number is asked to be below 8 of each function: a type for it was no plainer.

// No hop before this one has the same port.
fn first_visit(flow: Flow, hop: usize) -> bool
    requires { hop < 8 }
    ensures { result ≡ first_visit flow hop }
{
    let here = flow.path.ports[hop];
    !flow.path.ports[..hop].contains(&here)
}

fn byte_fits(flow: Flow, ports: usize, hop: usize) -> bool
    requires { hop < 8 }
    ensures { result ≡ byte_fits ports flow hop }
{
    let port = flow.path.ports[hop];
    if hop < usize::from(flow.path.hops) {
        usize::from(port) < ports && first_visit(flow, hop)
    } else {
        port == UNUSED
    }
}

// 1 to 8 different ports of so many, and 255 in the bytes past them; by the hop, since what a byte must be goes by it.
pub(crate) fn path_fits(flow: Flow, ports: usize) -> bool
    ensures { result ≡ path_fits ports flow }
{
    let hops = usize::from(flow.path.hops);
    hops >= 1 && hops <= MOST_HOPS && (0..MOST_HOPS).all(|hop| byte_fits(flow, ports, hop))
}

// Whether the flow crosses this port.
pub(crate) fn crosses(flow: Flow, port: usize) -> bool
    ensures { result ≡ crosses flow port }
{
    flow.path.crossed().iter().any(|p| usize::from(*p) == port)
}
