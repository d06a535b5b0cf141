// What holds of all roots and stores.
ghost use Rattle.cb_heap.specs.Laws.{ClosesAgain, KeepsChanges, KeepsReached, ReachedAlike, ReadsEntries, ReadsThrough, TakesCollect};

/// Reading roots goes through every change of them.
pub fn reads_through()
    ensures { ReadsThrough }
{}

/// What is kept of a change of objects is that change of what is kept.
pub fn keeps_changes()
    ensures { KeepsChanges }
{}

/// Views stay closed when what is put into them is held, and all that is held reads as it did when an object is placed.
pub fn closes_again()
    ensures { ClosesAgain }
{}

/// A collection lets only objects go that aren't reached.
pub fn keeps_reached()
    ensures { KeepsReached }
{}

/// Of what is reached in a state nothing is lost where only some objects are kept and nothing names another, and nothing is reached besides.
pub fn reaches_alike()
    ensures { ReachedAlike }
{}

/// Taking the objects of some sites that nothing reaches is a collection, where references follow what sites allow and each site is taken
/// whose objects may refer to those of one that is.
pub fn takes_collect()
    ensures { TakesCollect }
{}

/// Reading goes through the walk over all that may name an object from outside.
pub fn reads_entries()
    ensures { ReadsEntries }
{}
