// An empty table, and ports added to it.
ghost use Rattle.std.specs.Prelude.{[], ◌≡◌};
ghost use Rattle.ports.specs.Adds.{add_after, add_answer, may_add};
ghost use Rattle.ports.specs.Tables.{empty_model, owns, owns_added, table_model};

use super::Table;
use crate::kind::Kind;
use crate::limits::MOST_TABLE;
use crate::row::Row;
use cabinet::{Cabinet, CabinetFault};
use draft::Port;
use plan::port_fits;

impl<K: Kind + Default> Table<K> {
    // No port, in slot 0.
    pub fn new() -> Table<K>
        ensures model { table_model result ≡ empty_model }
        ensures own { owns result ≡ [] }
    {
        Table {
            rows: [Row::new(Port::default(), K::default()); MOST_TABLE],
            count: 0,
            slot: 0,
        }
    }
}

impl<K: Kind> Table<K> {
    fn may_add(&self, figures: Port, own: K) -> bool
        ensures { result ≡ may_add (table_model self.now) figures (K.fits figures own) }
    {
        self.ports() < MOST_TABLE && self.fresh() && port_fits(figures) && own.fits(figures)
    }

    // One port more, with the kind's own for it, while the cabinet is fresh.
    pub fn add_port(&mut self, figures: Port, own: K) -> Result<(), CabinetFault>
        ensures answer { result ≡ add_answer (table_model self.old) figures (K.fits figures own) }
        ensures after { table_model self.new ≡ add_after (table_model self.old) figures (K.fits figures own) }
        ensures own { owns self.new ≡ owns_added (may_add (table_model self.old) figures (K.fits figures own)) (owns self.old) own }
    {
        if !self.may_add(figures, own) {
            return Err(CabinetFault::NoPort(self.ports()));
        }
        self.rows[self.count] = Row::new(figures, own);
        self.count += 1;
        Ok(())
    }
}
