// The worked row of the estimates.
ghost use Rattle.std.specs.Prelude.{◌≡◌, true, Some, None};
ghost use Rattle.cb_plain.specs.Estimates.{survive};
ghost use Rattle.cb_tests.specs.Worked.{worked};

/// Of 100 words, 60 of them kept and 40 fresh, of which at the last collection one of four survived, all are reckoned to survive, 62 by age,
/// since seven eighths of what is kept and held are 52, and a half.
pub(crate) fn worked_estimates()
    ensures all { survive 0 (worked true) ≡ Some 100 }
    ensures by_age { survive 1 (worked true) ≡ Some 62 }
    ensures half { survive 2 (worked true) ≡ Some 50 }
    ensures no_code { survive 3 (worked true) ≡ None }
{}
