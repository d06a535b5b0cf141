// What a report is like.
ghost use Rattle.cb_report.specs.Example.{IsExample};

/// A report of two collections, as an example. It does nothing.
pub fn an_example()
    ensures { IsExample }
{}
