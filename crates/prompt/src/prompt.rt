// The prompt kind as a cabinet.
use crate::wire::Wire;
use ports::Table;

// A cabinet that hands over each frame once its line, faster than the service asks, has sent it.
pub type Prompt = Table<Wire>;
