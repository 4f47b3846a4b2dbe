// A flow of frames.
use crate::mask::Mask;
use crate::path::Path;

// A flow: its token bucket (rate and burst), its shortest and longest frame, its path and its regulators.
#[derive(Clone, Copy)]
pub struct Flow {
    pub rate: u32,
    pub burst: u32,
    pub shortest: u32,
    pub longest: u32,
    pub path: Path,
    pub mask: Mask,
}
