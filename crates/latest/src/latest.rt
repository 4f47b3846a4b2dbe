// The latest kind as a cabinet.
use crate::due::Due;
use ports::Table;

// A cabinet that hands over each frame in its due slot, as late as the service allows.
pub type Latest = Table<Due>;
