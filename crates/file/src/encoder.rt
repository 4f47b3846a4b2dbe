// The encoder: the plan file of a draft, written at the front of a lent place.
ghost use Rattle.std.specs.Prelude.{◌≡◌, ◌≤◌, true, length, is_some, Ok};
ghost use Rattle.file.specs.Counts.{Few};
ghost use Rattle.file.specs.Reads.{read};
ghost use Rattle.file.specs.Returns.{tidied};
ghost use Rattle.file.specs.Writers.{Wrote, left};
ghost use Rattle.file.specs.Writes.{encode_after, encode_answer, encoded, encoded_size, file_size};

use draft::Draft;
use draft::limits::{MOST_FLOWS, MOST_PORTS};
use record::{put_all, put_end};
use writer::Writer;

mod record;
mod writer;

// How many bytes the file of a draft has, if there can be one: 17 a port, 27 a flow, 34 a row, 5 for the end.
fn file_size(draft: &Draft) -> Option<usize>
    ensures { result ≡ file_size draft.now }
{
    let size = draft.parts.size;
    let rows = draft.proposal.rows;
    if size.ports > MOST_PORTS || size.flows > MOST_FLOWS || rows > MOST_FLOWS {
        return None;
    }
    Some(17 * size.ports + 27 * size.flows + 34 * rows + 5)
}

// The file of a draft next, where there is room for it.
fn put_file(draft: &Draft, writer: &mut Writer)
    requires few { Few draft.now }
    requires room { encoded_size draft.now ≤ length (left writer.old) }
    ensures after { Wrote writer.old (encoded draft.now) writer.new }
    ensures back { read (encoded draft.now) ≡ Ok (tidied draft.now) }
{
    let size = draft.parts.size;
    let (ports, _) = draft.parts.ports.split_at(size.ports);
    let (flows, _) = draft.parts.flows.split_at(size.flows);
    let (rows, _) = draft.proposal.table.rows.split_at(draft.proposal.rows);
    put_all(ports, writer);
    put_all(flows, writer);
    put_all(rows, writer);
    put_end((ports.len() + flows.len() + rows.len()) as u32, writer);
}

// Writes the plan file of a draft at the front of a place, and tells its length; without a file, or room for it, the place stays as it was.
#[tactic(auto, using(crate::proofs::Writing::length_encoded, crate::proofs::Writing::whole_place))]
pub fn encode(draft: &Draft, place: &mut [u8]) -> Option<usize>
    ensures answer { result ≡ encode_answer draft.now (length place.old) }
    ensures after { place.new ≡ encode_after draft.now place.old }
    ensures back { is_some result ≡ true → read (encoded draft.now) ≡ Ok (tidied draft.now) }
{
    let size = file_size(draft)?;
    if place.len() < size {
        return None;
    }
    put_file(draft, &mut Writer::new(place));
    Some(size)
}
