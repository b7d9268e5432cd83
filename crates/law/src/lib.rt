// What every run of calls on a ledger keeps, of all calls that there are.
#![tactic(auto)]

ghost use Rattle.law.specs.Law.{EveryRunKeepsItsPromises};

// From a new ledger on, over every memory and every growth rule, whatever is called: counts are true, blocks and writable
// capacities lie apart, every row shows its list in the book, and slides never outrun distances.
pub fn every_run_keeps_its_promises()
    ensures { EveryRunKeepsItsPromises }
{}
