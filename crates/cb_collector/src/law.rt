// What holds of what a store knows.
ghost use Rattle.std.specs.Prelude.{◌≡◌, length};
ghost use Rattle.cb_plain.specs.Estimates.{all_code};
ghost use Rattle.cb_dag.specs.Parts.{AreWithin};
ghost use Rattle.cb_collector.specs.Example.{IsExample};
ghost use Rattle.cb_collector.specs.Known.{Known};
ghost use Rattle.cb_collector.specs.Policy.{NoneIsBest};

use cb_dag::all_and_none_are_closed;

/// Where all that is used is reckoned to survive, no part is the best set, which a flow of nothing shows, and no other is.
pub fn none_is_best()
    ensures { (known : Known) → known.config.code ≡ all_code → AreWithin (length known.facts) known.config.edges → NoneIsBest known }
{
    all_and_none_are_closed();
}

/// Small cases, by numbers.
pub fn an_example()
    ensures { IsExample }
{}
