// What a port makes of a frame that enters it.
ghost use Rattle.std.specs.Prelude.{◌≡◌, ◌*◌, ◌≤◌};
ghost use Rattle.ports.specs.Lanes.{stamped};
ghost use Rattle.service.specs.Entries.{due_by, finish_after, length_fits};

use draft::Port;
use draft::limits::MOST_FRAME;
use rounding::up;
use service::Frame;

// A port's figures, a slot and a finish are handed in one by one, as the rules of service name them.

// Whether the port takes a frame of this length.
pub(crate) fn length_fits(figures: Port, len: u32) -> bool
    ensures { result ≡ length_fits figures len }
{
    figures.shortest <= len && len <= MOST_FRAME
}

// What a port at its rate has sent by the start of a slot, had it never paused.
fn sent_by(rate: u32, slot: u64) -> u64
    requires { (rate ≤ 10000) × (slot ≤ 1000000000000) }
    ensures value { result ≡ slot * rate }
    ensures small { result ≤ 10000000000000000 }
{
    slot * u64::from(rate)
}

// The finish once so many bits more have entered.
pub(crate) fn finish_after(figures: Port, slot: u64, finish: u64, len: u32) -> u64
    requires { (figures.rate ≤ 10000) × ((slot ≤ 1000000000000) × (finish ≤ 20000000000000000)) }
    ensures { result ≡ finish_after figures slot finish len }
{
    finish.max(sent_by(figures.rate, slot)) + u64::from(len)
}

// The slot by whose end a port with this finish is done.
fn due_by(figures: Port, finish: u64) -> u64
    requires { finish ≤ 20000000000000000 }
    ensures { result ≡ due_by figures finish }
{
    up(finish, u64::from(figures.rate)) + u64::from(figures.latency)
}

// The frame with its entry slot, and with the due slot that the port's new finish gives it.
pub(crate) fn stamped(figures: Port, slot: u64, finish: u64, frame: Frame) -> Frame
    requires { finish ≤ 20000000000000000 }
    ensures { result ≡ stamped figures slot finish frame }
{
    Frame {
        entry: slot,
        due: due_by(figures, finish),
        ..frame
    }
}
