// What is written next.
ghost use Rattle.std.specs.Prelude.{◌≡◌, ◌≤◌, [], ◌∷◌, length};
ghost use Rattle.file.specs.Kinds.{letter};
ghost use Rattle.file.specs.Writers.{Wrote, done, left};
ghost use Rattle.file.specs.Writes.{bytes_of};

use super::Writer;
use crate::kind::Kind;

impl<'a> Writer<'a> {
    // At the front of a place.
    #[tactic(auto, unfolding(crate::specs::Writers::done, crate::specs::Writers::left))]
    pub(crate) fn new(place: &'a mut [u8]) -> Writer<'a>
        ensures owner { result.place.ghost_name ≡ place.entry.ghost_name }
        ensures done { done result ≡ [] }
        ensures left { left result ≡ place.old }
    {
        Writer { place, at: 0 }
    }

    // These bytes next.
    #[tactic(auto, unfolding(crate::specs::Writers::done, crate::specs::Writers::left))]
    pub(crate) fn put(&mut self, bytes: &[u8])
        requires { length bytes.now ≤ length (left self.old) }
        ensures after { Wrote self.old bytes.now self.new }
    {
        let end = self.at + bytes.len();
        self.place[self.at..end].copy_from_slice(bytes);
        self.at = end;
    }

    // The letter of a record.
    pub(crate) fn put_letter(&mut self, kind: Kind)
        requires { 1 ≤ length (left self.old) }
        ensures after { Wrote self.old (letter kind ∷ []) self.new }
    {
        self.put(&[kind.letter()]);
    }

    // A number in four bytes, the highest first.
    pub(crate) fn put_number(&mut self, n: u32)
        requires { 4 ≤ length (left self.old) }
        ensures after { Wrote self.old (bytes_of n) self.new }
    {
        self.put(&n.to_be_bytes());
    }
}
