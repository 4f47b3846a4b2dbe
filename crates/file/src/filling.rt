// A draft, filled record by record: which kind may come, and how many.
ghost use Rattle.std.specs.Prelude.{◌≡◌, ◌+◌, ◌^◌, ◌<◌, ◌≤◌, length, is_ok, nat_lt, slice_set, if◌then◌else◌, Ok, Err, OnOk};
ghost use Rattle.draft.specs.Plans.{empty_draft};
ghost use Rattle.file.specs.Additions.{with_flow, with_port, with_row};
ghost use Rattle.file.specs.Counts.{Few};
ghost use Rattle.file.specs.Kinds.{body_length};
ghost use Rattle.file.specs.Reads.{end_answer, flow_answer, port_answer, record_answer, record_draft, record_size, row_answer, whole_answer, whole_draft};

use crate::fault::FileFault;
use crate::fields;
use crate::kind::Kind;
use crate::reader::Progress;
use draft::{Draft, Flow, Port, Row};

// One more behind the first `count` of an array that stands in fixed memory, where a place is left.
fn append<T: Copy>(
    places: &mut [T],
    count: &mut usize,
    at: usize,
    item: T,
) -> Result<Progress, FileFault>
    ensures answer { result ≡ (if nat_lt count.old (length places.old) then Ok Progress.More else Err (FileFault.Excess at)) }
    ensures places { places.new ≡ (if is_ok result then slice_set places.old count.old item else places.old) }
    ensures count { count.new ≡ (if is_ok result then count.old + 1 else count.old) }
{
    if *count >= places.len() {
        return Err(FileFault::Excess(at));
    }
    places[*count] = item;
    *count += 1;
    Ok(Progress::More)
}

// A draft that holds no more than a file may.
#[derive(Drop)]
pub(crate) struct Filling {
    pub(crate) draft: Draft,
    ghost few: { Few draft },
}

impl Filling {
    // With nothing said yet.
    pub(crate) fn new() -> Filling
        ensures { result.draft ≡ empty_draft }
    {
        Filling {
            draft: Draft::empty(),
        }
    }

    // One port more.
    fn add_port(&mut self, at: usize, port: Port) -> Result<Progress, FileFault>
        ensures answer { result ≡ port_answer self.old.draft at }
        ensures after { self.new.draft ≡ (if is_ok result then with_port self.old.draft port else self.old.draft) }
    {
        if self.draft.parts.size.flows != 0 || self.draft.proposal.rows != 0 {
            return Err(FileFault::Order(at));
        }
        let parts = &mut self.draft.parts;
        append(&mut parts.ports, &mut parts.size.ports, at, port)
    }

    // One flow more.
    fn add_flow(&mut self, at: usize, flow: Flow) -> Result<Progress, FileFault>
        ensures answer { result ≡ flow_answer self.old.draft at }
        ensures after { self.new.draft ≡ (if is_ok result then with_flow self.old.draft flow else self.old.draft) }
    {
        if self.draft.proposal.rows != 0 {
            return Err(FileFault::Order(at));
        }
        let parts = &mut self.draft.parts;
        append(&mut parts.flows, &mut parts.size.flows, at, flow)
    }

    // One row more, of this flow.
    fn add_row(&mut self, at: usize, flow: u8, row: Row) -> Result<Progress, FileFault>
        ensures answer { result ≡ row_answer self.old.draft at flow }
        ensures after { self.new.draft ≡ (if is_ok result then with_row self.old.draft row else self.old.draft) }
    {
        let proposal = &mut self.draft.proposal;
        if usize::from(flow) != proposal.rows {
            return Err(FileFault::Order(at));
        }
        append(&mut proposal.table.rows, &mut proposal.rows, at, row)
    }

    // The end record: it tells how many records came before it, and nothing comes after it.
    fn end(&self, at: usize, body: &[u8]) -> Result<Progress, FileFault>
        requires length { 4 ≤ length body.now }
        requires at { at + 5 < 2 ^ 64 }
        ensures { result ≡ end_answer self.now.draft at body.now }
    {
        let size = self.draft.parts.size;
        let before = size.ports + size.flows + self.draft.proposal.rows;
        if fields::number(body, 0) as usize != before {
            return Err(FileFault::Count(at));
        }
        if body.len() != 4 {
            return Err(FileFault::Trailing(at + 5));
        }
        Ok(Progress::Done)
    }

    // What a record that is whole says.
    fn fill(&mut self, at: usize, kind: Kind, body: &[u8]) -> Result<Progress, FileFault>
        requires length { body_length kind ≤ length body.now }
        requires at { at + 1 + length body.now < 2 ^ 64 }
        ensures answer { result ≡ whole_answer self.old.draft at kind body.now }
        ensures after { self.new.draft ≡ (if is_ok result then whole_draft self.old.draft kind body.now else self.old.draft) }
    {
        match kind {
            Kind::Port => self.add_port(at, fields::port(body)),
            Kind::Flow => self.add_flow(at, fields::flow(body)),
            Kind::Row => self.add_row(at, body[0], fields::row(body)),
            Kind::End => self.end(at, body),
        }
    }

    // The first record of the rest of a file, which begins at this place.
    pub(crate) fn take_record(&mut self, at: usize, rest: &[u8]) -> Result<Progress, FileFault>
        requires { at + length rest.now < 2 ^ 64 }
        ensures answer { result ≡ record_answer self.old.draft at rest.now }
        ensures after { self.new.draft ≡ (if is_ok result then record_draft self.old.draft rest.now else self.old.draft) }
        ensures whole { OnOk result (record_size rest.now ≤ length rest.now) }
    {
        let [letter, body @ ..] = rest else {
            return Err(FileFault::Cut(at));
        };
        let Ok(kind) = Kind::try_from(*letter) else {
            return Err(FileFault::Kind(at));
        };
        if body.len() < kind.body_length() {
            return Err(FileFault::Cut(at));
        }
        self.fill(at, kind, body)
    }
}
