// One record a step.
ghost use Rattle.std.specs.Prelude.{◌≡◌, ◌+◌, drop, is_ok, if◌then◌else◌};
ghost use Rattle.draft.specs.Plans.{empty_draft};
ghost use Rattle.file.specs.Reads.{record_answer, record_draft, record_size};

use super::{Progress, Reader};
use crate::fault::FileFault;
use crate::filling::Filling;
use crate::kind::Kind;

// How many bytes the first record takes, its letter included; 0 where there is none, so that the next place is one sum.
fn record_size(rest: &[u8]) -> usize
    ensures { result ≡ record_size rest.now }
{
    let [letter, ..] = rest else {
        return 0;
    };
    match Kind::try_from(*letter) {
        Ok(kind) => kind.body_length() + 1,
        Err(_) => 0,
    }
}

impl<'a> Reader<'a> {
    // At the first record, with nothing said yet.
    pub fn new(bytes: &'a [u8]) -> Reader<'a>
        ensures bytes { result.bytes.now ≡ bytes.now }
        ensures start { (result.at ≡ 0) × (result.filling.draft ≡ empty_draft) }
    {
        Reader {
            bytes,
            at: 0,
            filling: Filling::new(),
        }
    }

    // One record: whether more are to come, or the refusal that it earns, and then nothing has changed.
    pub fn step(&mut self) -> Result<Progress, FileFault>
        ensures bytes { self.new.bytes.now ≡ self.old.bytes.now }
        ensures answer { result ≡ record_answer self.old.filling.draft self.old.at (drop self.old.at self.old.bytes.now) }
        ensures draft { self.new.filling.draft ≡ (if is_ok result then record_draft self.old.filling.draft (drop self.old.at self.old.bytes.now) else self.old.filling.draft) }
        ensures at { self.new.at ≡ (if is_ok result then self.old.at + record_size (drop self.old.at self.old.bytes.now) else self.old.at) }
    {
        let at = self.at;
        let rest = &self.bytes[at..];
        let size = record_size(rest);
        let progress = self.filling.take_record(at, rest)?;
        self.at = at + size;
        Ok(progress)
    }
}
