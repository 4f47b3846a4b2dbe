// The kits of the bench.
ghost use Rattle.table.specs.Kits.{Worked};

// Kits worked out by the rules: their tables, delays and backlogs, and those that are refused.
pub fn worked()
    ensures { Worked }
{}
