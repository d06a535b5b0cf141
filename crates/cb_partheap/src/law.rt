// What holds of all heaps.
ghost use Rattle.cb_partheap.specs.Laws.{HeadersTell, PlacesTell, TwoObjects};
ghost use Rattle.cb_partheap.specs.MarkLaws.{MarksTake, StayUnmarked};

/// An object is found by its place, which tells its part as well, and is never 0.
pub fn places_tell()
    ensures { PlacesTell }
{}

/// The header of a new object tells its kind, length, serial and site, and that it isn't marked.
pub fn headers_tell()
    ensures { HeadersTell }
{}

/// How two objects stand one behind the other, as an example.
pub fn two_objects()
    ensures { TwoObjects }
{}

/// Where what is reached of a closed set is marked, what stays of all objects is what a take of the set's sites leaves, and the set has with each site those
/// whose objects may refer to its own. What is marked has no more words than what stays of the set.
pub fn marks_take()
    ensures { MarksTake }
{}

/// No object of a new heap is marked, and none is after any call of the heap, where none was before.
pub fn stay_unmarked()
    ensures { StayUnmarked }
{}
