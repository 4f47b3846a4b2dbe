// A queue as it lies in lent memory: which place is first, and how many are taken.
ghost use Rattle.std.specs.Prelude.{◌≤◌, length};

mod methods;
mod size;

// A FIFO queue over a slice that the caller lends; it goes round when it reaches the slice's end.
#[derive(Drop)]
pub struct Queue<'a, T> {
    places: &'a mut [T],
    first: usize,
    count: usize,
    ghost fits: { count ≤ length places.now },
    ghost starts: { first ≤ length places.now },
}
