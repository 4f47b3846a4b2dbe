// What a table tells of its ports, beside the questions of every cabinet.
ghost use Rattle.std.specs.Prelude.{◌≡◌, ◌≤◌, leb};
ghost use Rattle.cabinet.specs.Advances.{has_due};
ghost use Rattle.cabinet.specs.Model.{frame_in, port_in};
ghost use Rattle.cabinet.specs.Takes.{Timely, passes};
ghost use Rattle.ports.specs.Kinds.{first_stays};
ghost use Rattle.ports.specs.Tables.{RowAt, owns, table_model, word_at};

use super::Table;
use crate::kind::Kind;
use crate::row::Row;
use cabinet::Cabinet;
use service::Frame;

impl<K: Kind> Table<K> {
    // The row of a port.
    pub(crate) fn row(&self, port: usize) -> Option<&Row<K>>
        ensures { RowAt self.now port result }
    {
        self.rows[..self.count].get(port)
    }

    // The first frame that waits at a port. No other of the line is due before it, and it is not due before its least stay.
    pub fn first(&self, port: usize) -> Option<Frame>
        ensures value { result ≡ frame_in (port_in (table_model self.now) port).line 0 }
        ensures earliest { has_due (table_model self.now).slot (port_in (table_model self.now) port).line ≡ passes (λ x. leb x.due (table_model self.now).slot) result }
        ensures stays { first_stays (port_in (table_model self.now) port) result }
    {
        self.frame(port, 0)
    }

    // Whether the kind hands over the first frame that waits at a port.
    pub(crate) fn ready(&self, port: usize) -> bool
        ensures value { result ≡ word_at K.ready (table_model self.now) (owns self.now) port }
        ensures timely { Timely (table_model self.now).slot (port_in (table_model self.now) port) result }
    {
        let slot = self.slot;
        self.row(port).is_some_and(|row| row.ready(slot))
    }
}
