// Facts about a part, and what is reckoned to survive.
ghost use Rattle.std.specs.Prelude.{◌≡◌, IfSome, Some};
ghost use Rattle.std.specs.Bool.{OnTrue};
ghost use Rattle.cb_plain.specs.Estimates.{AreFacts, age_code, survive};

use cb_dag::gain_of;
use cb_estimator::Rule;
use cb_plain::Facts;
use std::alloc::{AllocError, Global};

/// The most words that a part has.
const MOST: u64 = 268_435_456;

/// The facts of a line (as `facts 100 60 40 1 4 held`: used, kept, fresh, last live, last used, and whether the part is held), if it has some.
pub(crate) fn read_facts(line: &str) -> Option<Facts>
    ensures { IfSome result AreFacts }
{
    let mut words = line.split_whitespace();
    if words.next()? != "facts" {
        return None;
    }
    let facts = Facts {
        turn: 0,
        part: 0,
        used: words.next()?.parse::<u64>().ok()?,
        kept: words.next()?.parse::<u64>().ok()?,
        fresh: words.next()?.parse::<u64>().ok()?,
        last_live: words.next()?.parse::<u64>().ok()?,
        last_used: words.next()?.parse::<u64>().ok()?,
        held: words.next().is_some_and(|word| word == "held"),
    };
    if are_facts(facts) { Some(facts) } else { None }
}

/// Whether these may be what is known of a part.
fn are_facts(facts: Facts) -> bool
    ensures { OnTrue result (AreFacts facts) }
{
    facts.used <= MOST
        && facts.kept <= facts.used
        && facts.fresh == facts.used - facts.kept
        && facts.last_live <= facts.last_used
        && 1 <= facts.last_used
        && facts.last_used <= MOST
}

/// What is reckoned to survive by age.
pub(crate) fn by_age(facts: Facts) -> u64
    requires { AreFacts facts }
    ensures { survive age_code facts ≡ Some result }
{
    let steady = if facts.held { 7 } else { 4 };
    let kept = facts.kept * steady / 8;
    let fresh = facts.fresh * facts.last_live / facts.last_used;
    facts.used.min(kept + fresh)
}

/// The survivors by each rule, with what the part gains then.
pub(crate) fn tell_survivors(
    alloc: Global,
    rules: &[Rule],
    facts: Facts,
) -> Result<String, AllocError>
    requires { AreFacts facts }
{
    let mut told = String::from_str(alloc, "survivors")?;
    for rule in rules {
        let survivors = rule.estimate(facts);
        let gain = gain_of(facts, survivors.min(MOST));
        let name = rule.name().text();
        write!(told, " | {name} {survivors} gains {gain}")?;
    }
    Ok(told)
}
