// The service of a cabinet of any kind. A port that it lacks gives 0 or none.
ghost use Rattle.std.specs.Prelude.{◌≡◌};
ghost use Rattle.cabinet.specs.Advances.{advance_after, advance_answer};
ghost use Rattle.cabinet.specs.Puts.{put_after, put_answer};
ghost use Rattle.cabinet.specs.Takes.{Taken, hand_answer, take_after};
ghost use Rattle.ports.specs.Tables.{owns, owns_after, table_model, word_at};
ghost use Rattle.ports.specs.Laws.{table_well};

use super::Table;
use crate::kind::Kind;
use cabinet::{Cabinet, CabinetFault};
use draft::Port;
use service::Frame;
use service::limits::LAST_SLOT;

impl<K: Kind> Cabinet for Table<K> {
    ghost model = { λ t. table_model t };

    ghost well = { λ t. table_well t };

    fn ports(&self) -> usize {
        self.count
    }

    fn slot(&self) -> u64 {
        self.slot
    }

    fn figures(&self, port: usize) -> Port {
        self.row(port)
            .map_or(Port::default(), |row| row.lane.figures)
    }

    fn finish(&self, port: usize) -> u64 {
        self.row(port).map_or(0, |row| row.lane.finish)
    }

    fn waiting(&self, port: usize) -> usize {
        self.row(port).map_or(0, |row| row.lane.waiting)
    }

    fn frame(&self, port: usize, i: usize) -> Option<Frame> {
        self.row(port).and_then(|row| row.lane.frame(i))
    }

    fn owes(&self, port: usize) -> bool {
        let slot = self.slot;
        self.row(port).is_some_and(|row| row.owes(slot))
    }

    fn put(&mut self, port: usize, frame: Frame) -> Result<(), CabinetFault>
        ensures answer { result ≡ put_answer (table_model self.old) port frame }
        ensures after { table_model self.new ≡ put_after (table_model self.old) port frame }
        ensures own { owns self.new ≡ owns self.old }
    {
        if port >= self.count {
            return Err(CabinetFault::NoPort(port));
        }
        let slot = self.slot;
        self.rows[port].put(slot, port, frame)
    }

    fn take(&mut self, port: usize) -> Option<Frame>
        ensures taken { Taken (table_model self.old) port result (table_model self.new) }
        ensures rule { result ≡ hand_answer (word_at K.ready (table_model self.old) (owns self.old) port) (table_model self.old) port }
        ensures after { table_model self.new ≡ take_after (table_model self.old) port result }
        ensures own { owns self.new ≡ owns_after K.handed port result (owns self.old) }
    {
        let ready = self.ready(port);
        self.hand_where(port, ready)
    }

    fn advance(&mut self) -> Result<(), CabinetFault>
        ensures answer { result ≡ advance_answer (table_model self.old) }
        ensures after { table_model self.new ≡ advance_after (table_model self.old) }
        ensures own { owns self.new ≡ owns self.old }
    {
        if let Some(port) = self.owed() {
            return Err(CabinetFault::Owed(port));
        }
        if self.slot >= LAST_SLOT {
            return Err(CabinetFault::LastSlot);
        }
        self.slot += 1;
        Ok(())
    }
}
