// What parts gain.
ghost use Rattle.std.specs.Prelude.{◌≡◌, ◌≤◌, ◌^◌};
ghost use Rattle.cb_dag.specs.Closed.{gain_of as gain_of_part};
ghost use Rattle.cb_dag.specs.Flows.{negative, positive};

use cb_plain::Facts;

/// A gain where it is positive, and else 0.
pub fn positive_part(gain: i64) -> u64
    ensures { result ≡ positive gain }
{
    if gain > 0 { gain.unsigned_abs() } else { 0 }
}

/// How far a gain is below 0, and else 0.
pub fn negative_part(gain: i64) -> u64
    ensures { result ≡ negative gain }
{
    if gain < 0 { gain.unsigned_abs() } else { 0 }
}

/// What a part gains when it is collected, in words: those that are used, less twice those that are reckoned to survive (Hirzel, Diwan and Hertz 2003).
pub fn gain_of(facts: Facts, survivors: u64) -> i64
    requires used { facts.used ≤ 2 ^ 28 }
    requires survivors { survivors ≤ 2 ^ 28 }
    ensures { result ≡ gain_of_part facts survivors }
{
    facts.used as i64 - 2 * survivors as i64
}
