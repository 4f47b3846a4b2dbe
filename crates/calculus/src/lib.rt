// Discrete network calculus: token buckets, FIFO ports, delays, backlogs and regulators in whole slots, and the law over the runs of a system made of them.
// The theorems hold for every count of windows and every curve; each stands on a call, so that the check asks for its proof.
#![tactic(auto)]

ghost use Rattle.calculus.specs.Buckets.{Passes, Rises, Starts};
ghost use Rattle.calculus.specs.Hops.{Counts, Holds, Waits, Widens};
ghost use Rattle.calculus.specs.Laws.{EveryRun};
ghost use Rattle.calculus.specs.Ports.{Enters, Serves};

// What a token bucket lets pass conforms to its burst and rate, and its level is no lower than that asks.
pub fn token_buckets()
    ensures starts { Starts }
    ensures rises { Rises }
    ensures passes { Passes }
{}

// A FIFO port is done in time with all that stays below its burst and rate.
pub fn fifo_ports()
    ensures enters { Enters }
    ensures serves { Serves }
{}

// A stay that varies widens a curve; a curve over the stay bounds what waits, in bits and in frames.
pub fn delays()
    ensures widens { Widens }
    ensures holds { Holds }
    ensures counts { Counts }
{}

// A regulator adds nothing to the delay.
pub fn regulators()
    ensures { Waits }
{}

// Every run of a sound system keeps its curves, its stays and its order, whatever circles the routes make.
pub fn every_run()
    ensures { EveryRun }
{}
