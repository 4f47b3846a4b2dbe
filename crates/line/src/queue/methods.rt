// What goes in, what comes out, and what stands where.
ghost use Rattle.std.specs.Prelude.{◌≡◌, ◌<◌, []};
ghost use Rattle.line.specs.Queues.{Looked, Popped, Pushed, contents, memory, room};
ghost use Rattle.line.specs.Ring.{placed};

use super::Queue;

// That the memory is still the lender's is a clause of each call, since `Pushed` and `Popped` go by cases.
impl<'a, T: Copy> Queue<'a, T> {
    // An empty queue; the lent memory is as it was.
    pub fn new(places: &'a mut [T]) -> Queue<'a, T>
        ensures owner { result.places.ghost_name ≡ places.entry.ghost_name }
        ensures memory { memory result ≡ places.old }
        ensures items { contents result ≡ [] }
        ensures start { (result.first ≡ 0) × (result.count ≡ 0) }
    {
        Queue {
            places,
            first: 0,
            count: 0,
        }
    }

    // The place of the i-th element, or of the one to come behind the last: they go round at the end.
    fn place(&self, i: usize) -> usize
        requires { i < room self.now }
        ensures value { result ≡ placed (room self.now) self.now.first i }
        ensures within { result < room self.now }
    {
        let left = self.places.len() - self.first;
        if i < left { self.first + i } else { i - left }
    }

    // The i-th element, counted from the first to come out.
    // (Not by `then`: its closure would have to say again what `get` promises.)
    pub fn get(&self, i: usize) -> Option<T>
        ensures { Looked self.now i result }
    {
        if i >= self.count {
            return None;
        }
        Some(self.places[self.place(i)])
    }

    // One element more, or the element back where every place is taken.
    pub fn push(&mut self, value: T) -> Result<(), T>
        ensures owner { self.new.places.ghost_name ≡ self.old.places.ghost_name }
        ensures after { Pushed self.old value result self.new }
    {
        if self.count >= self.places.len() {
            return Err(value);
        }
        let count = self.count;
        let end = self.place(count);
        self.places[end] = value;
        self.count += 1;
        Ok(())
    }

    // The first element, which leaves; its place keeps what it held.
    pub fn pop(&mut self) -> Option<T>
        ensures owner { self.new.places.ghost_name ≡ self.old.places.ghost_name }
        ensures after { Popped self.old result self.new }
    {
        let value = self.get(0)?;
        self.first = self.place(0) + 1;
        self.count -= 1;
        Some(value)
    }

    // Lets every element go, and starts at the first place again; the lent memory is as it was.
    pub fn clear(&mut self)
        ensures owner { self.new.places.ghost_name ≡ self.old.places.ghost_name }
        ensures memory { memory self.new ≡ memory self.old }
        ensures items { contents self.new ≡ [] }
        ensures start { (self.new.first ≡ 0) × (self.new.count ≡ 0) }
    {
        self.first = 0;
        self.count = 0;
    }
}
