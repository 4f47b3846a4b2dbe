// Emptying a port of what its cabinet hands over, whatever its make.
ghost use Rattle.std.specs.Prelude.{◌≡◌};
ghost use Rattle.cabinet.specs.Drains.{DrainedInto};

use crate::cabinet::Cabinet;
use line::Queue;
use service::Frame;

// Takes from the port until none is said, and lays the frames into the tray; tells how many came.
// Where the tray has fewer free places than frames wait at the port, nothing is taken.
pub fn drain<C: Cabinet>(cabinet: &mut C, port: usize, tray: &mut Queue<Frame>) -> Option<usize>
    ensures owner { tray.new.places.ghost_name ≡ tray.old.places.ghost_name }
    ensures after { DrainedInto (C.Cabinet.model cabinet.old) port tray.old result (C.Cabinet.model cabinet.new) tray.new }
{
    if tray.capacity() - tray.len() < cabinet.waiting(port) {
        return None;
    }
    let mut came = 0;
    while let Some(frame) = cabinet.take(port) {
        let _ = tray.push(frame);
        came += 1;
    }
    Some(came)
}
