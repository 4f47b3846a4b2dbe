// Handing over the first frame of a line: one row is lent to be changed.
ghost use Rattle.std.specs.Prelude.{◌≡◌};
ghost use Rattle.cabinet.specs.Model.{frame_in, port_in};
ghost use Rattle.cabinet.specs.Takes.{Taken, Timely, hand_answer, take_after};
ghost use Rattle.ports.specs.Tables.{owns, owns_after, table_model};

use super::Table;
use crate::kind::Kind;
use service::Frame;

impl<K: Kind> Table<K> {
    // The equation of take stands on each call down to the row, since each hands on what the one below promises.
    // The first frame of a port's line leaves it.
    fn leave(&mut self, port: usize) -> Option<Frame>
        ensures answer { result ≡ frame_in (port_in (table_model self.old) port).line 0 }
        ensures after { table_model self.new ≡ take_after (table_model self.old) port result }
        ensures own { owns self.new ≡ owns_after K.handed port result (owns self.old) }
    {
        if port >= self.count {
            return None;
        }
        self.rows[port].take()
    }

    // Hands over the first frame of a port's line where told that it is ready, else says none.
    // That keeps the rule of take where it is told in time.
    pub(crate) fn hand_where(&mut self, port: usize, ready: bool) -> Option<Frame>
        ensures answer { result ≡ hand_answer ready (table_model self.old) port }
        ensures after { table_model self.new ≡ take_after (table_model self.old) port result }
        ensures own { owns self.new ≡ owns_after K.handed port result (owns self.old) }
        ensures kept { Timely (table_model self.old).slot (port_in (table_model self.old) port) ready → Taken (table_model self.old) port result (table_model self.new) }
    {
        if ready { self.leave(port) } else { None }
    }
}
