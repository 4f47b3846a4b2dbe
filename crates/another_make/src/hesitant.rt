// A cabinet around any other, known by the interface alone.
use crate::thirds::Thirds;

pub mod serving;

// It asks the cabinet inside at every third question only, or when a frame is due.
#[derive(Drop)]
pub struct Hesitant<C> {
    inside: C,
    thirds: Thirds,
}
