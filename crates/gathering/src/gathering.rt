// The gathering kind as a cabinet.
use crate::period::Period;
use ports::Table;

// A cabinet that, in the slots divisible by a port's period, hands over all frames that have stayed long enough, and
// others when they are due.
pub type Gathering = Table<Period>;
