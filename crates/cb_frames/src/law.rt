// What the entries of roots say of them.
ghost use Rattle.cb_frames.specs.Named.{EntriesAreRoots};

/// The entries other than 0 are exactly the roots that objects are reached from.
pub fn entries_are_roots()
    ensures { EntriesAreRoots }
{}
