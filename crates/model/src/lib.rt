// The network's model: its state, what offers and slot ends make of it, its runs, and what an accepted table promises of every run.
#![tactic(auto)]

ghost use Rattle.model.specs.Examples.{Story};
ghost use Rattle.model.specs.Promises.{NeverStuck, Promised};

// Every run of a network of any plan keeps the figures of every accepted table: stays, backlogs, delivery, loss and order.
pub fn promised()
    ensures { Promised }
{}

// And no run is stuck: a slot can always end.
pub fn never_stuck()
    ensures { NeverStuck }
{}

// The definitions at work on a ring with a regulator, one run computed to its end.
pub fn story()
    ensures { Story }
{}
