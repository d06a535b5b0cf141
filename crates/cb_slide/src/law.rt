// What marking and sliding leave together.
ghost use Rattle.cb_slide.specs.Collected.{BothCollect};

/// Marking and then sliding leave what a take of the sites of their set leaves: roots and objects as they were, but for the objects of the set that aren't
/// reached.
pub fn both_collect()
    ensures { BothCollect }
{}
