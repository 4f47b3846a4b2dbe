// How much a queue holds, and how much it can hold.
ghost use Rattle.std.specs.Prelude.{◌≡◌, ◌≤◌, length};
ghost use Rattle.line.specs.Queues.{contents, room};

use super::Queue;

impl<'a, T: Copy> Queue<'a, T> {
    // How many elements it holds.
    pub fn len(&self) -> usize
        ensures count { result ≡ self.now.count }
        ensures items { result ≡ length (contents self.now) }
    {
        self.count
    }

    // How many it can hold.
    pub fn capacity(&self) -> usize
        ensures value { result ≡ room self.now }
        ensures within { self.now.count ≤ result }
    {
        self.places.len()
    }
}
