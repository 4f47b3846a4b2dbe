// One port as a cabinet keeps it: its figures, its finish and its line.
ghost use Rattle.std.specs.Prelude.{◌≡◌, ◌<◌, ◌≤◌, is_ok, if◌then◌else◌};
ghost use Rattle.cabinet.specs.Model.{frame_in};
ghost use Rattle.cabinet.specs.Puts.{line_answer, lined};
ghost use Rattle.line.specs.Ring.{placed};
ghost use Rattle.ports.specs.Lanes.{Filled, Sound, blank_lane, left_by, pushed, lane_port};

use crate::entry::{finish_after, length_fits, stamped};
use crate::limits::MOST_LINE;
use cabinet::CabinetFault;
use draft::Port;
use service::Frame;
use service::limits::MOST_FINISH;

// A port; its line lies in `frames` from `first` on, going round at the end, so that nothing is moved when a frame leaves;
// an array, since nothing is allocated.
// That a lane is filled and sound is asked of each method, as with rows. Its places are counted as a lent queue's are, once more: one type for both would carry the room that is fixed here.
#[derive(Clone, Copy)]
pub struct Lane {
    pub(crate) figures: Port,
    pub(crate) finish: u64,
    frames: [Frame; MOST_LINE],
    first: usize,
    pub(crate) waiting: usize,
}

impl Lane {
    // A port into which nothing has been put.
    pub(crate) fn new(figures: Port) -> Lane
        ensures { result ≡ blank_lane figures }
    {
        Lane {
            figures,
            finish: 0,
            frames: [Frame::default(); MOST_LINE],
            first: 0,
            waiting: 0,
        }
    }

    // The place of the i-th frame, going round at the end.
    fn place(&self, i: usize) -> usize
        requires { (Filled self.now) × (i < 32) }
        ensures value { result ≡ placed 32 self.now.first i }
        ensures within { result < 32 }
    {
        let left = MOST_LINE - self.first;
        if i < left { self.first + i } else { i - left }
    }

    // The i-th frame that waits.
    pub(crate) fn frame(&self, i: usize) -> Option<Frame>
        requires { Filled self.now }
        ensures { result ≡ frame_in (lane_port self.now).line i }
    {
        if i < self.waiting {
            Some(self.frames[self.place(i)])
        } else {
            None
        }
    }

    // One frame more at the end of the line, which has room, and the finish that counts it.
    fn push(&mut self, finish: u64, frame: Frame)
        requires { (Filled self.old) × ((self.old.waiting < 32) × (finish ≤ 20000000000000000)) }
        ensures after { lane_port self.new ≡ pushed finish frame (lane_port self.old) }
        ensures filled { Filled self.new }
    {
        let at = self.place(self.waiting);
        self.frames[at] = frame;
        self.finish = finish;
        self.waiting += 1;
    }

    // Enters a frame in this slot, at the port of this number.
    pub(crate) fn put(&mut self, slot: u64, port: usize, frame: Frame) -> Result<(), CabinetFault>
        requires { (slot ≤ 1000000000000) × (Sound self.old) }
        ensures answer { result ≡ line_answer slot port (lane_port self.old) frame }
        ensures after { lane_port self.new ≡ (if is_ok result then lined slot (lane_port self.old) frame else lane_port self.old) }
        ensures sound { Sound self.new }
    {
        if !length_fits(self.figures, frame.len) {
            return Err(CabinetFault::Length(port));
        }
        if self.waiting >= MOST_LINE {
            return Err(CabinetFault::Full(port));
        }
        let finish = finish_after(self.figures, slot, self.finish, frame.len);
        if finish > MOST_FINISH {
            return Err(CabinetFault::Finish(port));
        }
        self.push(finish, stamped(self.figures, slot, finish, frame));
        Ok(())
    }

    // The first frame, which leaves the line.
    pub(crate) fn take(&mut self) -> Option<Frame>
        requires { Sound self.old }
        ensures answer { result ≡ frame_in (lane_port self.old).line 0 }
        ensures after { lane_port self.new ≡ left_by result (lane_port self.old) }
        ensures sound { Sound self.new }
    {
        if self.waiting == 0 {
            return None;
        }
        let at = self.place(0);
        let frame = self.frames[at];
        self.first = at + 1;
        self.waiting -= 1;
        Some(frame)
    }
}
