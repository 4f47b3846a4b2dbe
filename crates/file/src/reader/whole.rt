// A whole file, from its first record to its last.
ghost use Rattle.std.specs.Prelude.{◌≡◌};
ghost use Rattle.draft.specs.Plans.{empty_draft};
ghost use Rattle.file.specs.Reads.{read, read_from};
ghost use Rattle.file.specs.Returns.{Sole};

use super::{Progress, Reader};
use crate::fault::FileFault;
use draft::Draft;

// The records from where the reader stands, so many at the most.
#[tactic(auto, using(crate::proofs::Steps::read_left))]
fn records(mut reader: Reader, most: usize) -> Result<Draft, FileFault>
    ensures { result ≡ read_from most reader.entry.filling.draft reader.entry.at reader.entry.bytes.now }
{
    for _turn in 0..most {
        match reader.step()? {
            Progress::More => {}
            Progress::Done => return Ok(reader.filling.draft),
        }
    }
    Err(FileFault::Cut(reader.at))
}

// At the first record of a file; its numbers are bytes, so that no other file says the same.
fn start<'a>(bytes: &'a [u8]) -> Reader<'a>
    ensures bytes { result.bytes.now ≡ bytes.now }
    ensures start { (result.at ≡ 0) × (result.filling.draft ≡ empty_draft) }
    ensures sole { Sole bytes.now }
{
    Reader::new(bytes)
}

// What the file says, which no other file says, or its first refusal with the place where it shows.
pub fn read(bytes: &[u8]) -> Result<Draft, FileFault>
    ensures value { result ≡ read bytes.now }
    ensures sole { Sole bytes.now }
{
    let reader = start(bytes);
    records(reader, bytes.len())
}
