// A lent place, and how much of it is written.
ghost use Rattle.std.specs.Prelude.{◌≤◌, length};

mod methods;

// Bytes are written into the place one behind the other, from its front on. That there is room is asked of each call, since
// how much is left falls with each.
#[derive(Drop)]
pub(crate) struct Writer<'a> {
    place: &'a mut [u8],
    at: usize,
    ghost within: { at ≤ length place.now },
}
