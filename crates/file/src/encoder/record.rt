// The records of a file, each written by what it holds.
ghost use Rattle.std.specs.Prelude.{◌≡◌, ◌≤◌, ℕ, List, length, All};
ghost use Rattle.file.specs.Counts.{HasCells, HasPath};
ghost use Rattle.file.specs.Writers.{Wrote, in_order, left};
ghost use Rattle.file.specs.Writes.{end_record, flow_record, port_record, row_record};

use super::writer::Writer;
use crate::kind::Kind;
use draft::{Flow, Port, Row};

// What a record says, by its number among those of its kind.
pub(crate) trait Record {
    ghost bytes: { ℕ → Self → List ℕ };

    // What holds of every value of the type: how long its arrays are.
    ghost full: { Self → Type 0 };

    fn put(&self, number: u8, writer: &mut Writer)
        requires { length (bytes number self.now) ≤ length (left writer.old) }
        ensures after { Wrote writer.old (bytes number self.now) writer.new }
        ensures full { full self.now };
}

impl Record for Port {
    ghost bytes = { λ _ port. port_record port };

    ghost full = { λ _. Unit {0} };

    fn put(&self, _number: u8, writer: &mut Writer) {
        writer.put_letter(Kind::Port);
        writer.put_number(self.rate);
        writer.put_number(self.latency);
        writer.put_number(self.stay);
        writer.put_number(self.shortest);
    }
}

impl Record for Flow {
    ghost bytes = { λ _ flow. flow_record flow };

    ghost full = { HasPath };

    fn put(&self, _number: u8, writer: &mut Writer) {
        writer.put_letter(Kind::Flow);
        writer.put_number(self.rate);
        writer.put_number(self.burst);
        writer.put_number(self.shortest);
        writer.put_number(self.longest);
        writer.put(&[self.path.hops, self.mask.bits]);
        writer.put(&self.path.ports);
    }
}

impl Record for Row {
    ghost bytes = { row_record };

    ghost full = { HasCells };

    fn put(&self, number: u8, writer: &mut Writer) {
        writer.put_letter(Kind::Row);
        writer.put(&[number]);
        for cell in &self.cells {
            writer.put_number(*cell);
        }
    }
}

// The end, after so many records.
pub(crate) fn put_end(before: u32, writer: &mut Writer)
    requires { 5 ≤ length (left writer.old) }
    ensures after { Wrote writer.old (end_record before) writer.new }
{
    writer.put_letter(Kind::End);
    writer.put_number(before);
}

// All records of a kind.
pub(crate) fn put_all<T: Record>(records: &[T], writer: &mut Writer)
    requires few { length records.now ≤ 64 }
    requires room { length (in_order T.bytes 0 records.now) ≤ length (left writer.old) }
    ensures after { Wrote writer.old (in_order T.bytes 0 records.now) writer.new }
    ensures full { All T.full records.now }
{
    for (number, record) in records.iter().enumerate() {
        record.put(number as u8, writer);
    }
}
