// A row of a table: a port, and what the cabinet's kind keeps for it.
ghost use Rattle.std.specs.Prelude.{◌≡◌, ◌≤◌, true, is_ok, if◌then◌else◌};
ghost use Rattle.cabinet.specs.Model.{frame_in};
ghost use Rattle.cabinet.specs.Puts.{line_answer, lined};
ghost use Rattle.cabinet.specs.Advances.{has_due};
ghost use Rattle.cabinet.specs.Takes.{Timely};
ghost use Rattle.ports.specs.Kinds.{own_after, word};
ghost use Rattle.ports.specs.Lanes.{left_by};
ghost use Rattle.ports.specs.Rows.{Whole, blank_row, row_port};

use crate::kind::Kind;
use crate::lane::Lane;
use cabinet::CabinetFault;
use draft::Port;
use service::Frame;

// The port, and the kind's own beside it. That a row is whole is asked of each method, and is no ghost field of its own:
// the table that holds the rows says it of those in use, and a row that is not in use need not be.
#[derive(Clone, Copy)]
pub struct Row<K> {
    pub(crate) lane: Lane,
    pub(crate) own: K,
}

impl<K: Kind> Row<K> {
    // A port into which nothing has been put.
    pub(crate) fn new(figures: Port, own: K) -> Row<K>
        ensures { result ≡ blank_row figures own }
    {
        Row {
            lane: Lane::new(figures),
            own,
        }
    }

    // Whether the first frame of the line is due by this slot: no other is due before it.
    pub(crate) fn owes(&self, slot: u64) -> bool
        requires { Whole K.keeps self.now }
        ensures { result ≡ has_due slot (row_port self.now).line }
    {
        self.lane.frame(0).is_some_and(|frame| frame.due <= slot)
    }

    // Whether the kind hands over the first frame of the line in this slot.
    pub(crate) fn ready(&self, slot: u64) -> bool
        requires { Whole K.keeps self.now }
        ensures value { result ≡ word K.ready slot (row_port self.now) self.now.own }
        ensures timely { Timely slot (row_port self.now) result }
    {
        let stay = self.lane.figures.stay;
        match self.lane.frame(0) {
            Some(frame) => self.own.ready(slot, stay, frame),
            None => false,
        }
    }

    // Enters a frame in this slot, at the port of this number.
    pub(crate) fn put(&mut self, slot: u64, port: usize, frame: Frame) -> Result<(), CabinetFault>
        requires { (slot ≤ 1000000000000) × Whole K.keeps self.old }
        ensures answer { result ≡ line_answer slot port (row_port self.old) frame }
        ensures after { row_port self.new ≡ (if is_ok result then lined slot (row_port self.old) frame else row_port self.old) }
        ensures own { self.new.own ≡ self.old.own }
        ensures whole { Whole K.keeps self.new }
    {
        self.lane.put(slot, port, frame)
    }

    // The first frame, which leaves the line; the kind counts it.
    pub(crate) fn take(&mut self) -> Option<Frame>
        requires { Whole K.keeps self.old }
        ensures answer { result ≡ frame_in (row_port self.old).line 0 }
        ensures after { row_port self.new ≡ left_by result (row_port self.old) }
        ensures own { self.new.own ≡ own_after K.handed result self.old.own }
        ensures whole { Whole K.keeps self.new }
    {
        let frame = self.lane.take()?;
        self.own.hand(frame);
        Some(frame)
    }
}
