// What a collection says of the parts.
ghost use Rattle.std.specs.Prelude.{◌≡◌, ◌-◌, ◌<◌, ◌≤◌, ◌^◌, length, cond, slice_index_or, false, ◌+◌};
ghost use Rattle.std.specs.List.{All};
ghost use Rattle.cb_dag.specs.Marks.{marked};
ghost use Rattle.cb_blocks.specs.Rows.{row};
ghost use Rattle.cb_collector.specs.Collecting.{fact_behind, facts_behind, survived, words_in};
ghost use Rattle.cb_collector.specs.Held.{used_known};
ghost use Rattle.cb_collector.specs.Known.{facts_with, first_facts};

use cb_blocks::Blocks;
use cb_plain::{Facts, List, Set};

/// The words of a part, if it is in a set.
fn words_if(words: &Blocks, set: &Set, part: u32) -> u64
    requires parts { length set.now ≡ length words.now.words }
    requires below { part < length set.now }
    ensures { result ≡ cond (marked set.now part) (length (row words.now.words part)) 0 }
{
    if set.has(part) { words.used(part) } else { 0 }
}

/// The words of the parts of a set.
pub(crate) fn words_there(words: &Blocks, set: &Set) -> u128
    requires few { length words.now.words ≤ 2 ^ 12 }
    requires parts { length set.now ≡ length words.now.words }
    ensures { result ≡ words_in (length words.now.words) set.now (λ part. length (row words.now.words part)) }
{
    let mut there = 0_u128;
    for part in 0..set.parts() {
        there += words_if(words, set, part) as u128;
    }
    there
}

/// How many words fewer a part has than were known of it, if it is in a set.
fn gone_if(facts: &List<Facts>, words: &Blocks, set: &Set, part: u32) -> u64
    requires parts { length set.now ≡ length words.now.words }
    requires facts { length facts.now ≡ length words.now.words }
    requires below { part < length set.now }
    ensures { result ≡ cond (marked set.now part) (used_known facts.now part - length (row words.now.words part)) 0 }
{
    if set.has(part) {
        let of = facts.get(part as usize);
        of.used.saturating_sub(words.used(part))
    } else {
        0
    }
}

/// How many words fewer the parts of a set have than were known of them.
pub(crate) fn words_gone(facts: &List<Facts>, words: &Blocks, set: &Set) -> u128
    requires few { length words.now.words ≤ 2 ^ 12 }
    requires parts { length set.now ≡ length words.now.words }
    requires facts { length facts.now ≡ length words.now.words }
    ensures { result ≡ words_in (length words.now.words) set.now (λ part. used_known facts.now part - length (row words.now.words part)) }
{
    let mut gone = 0_u128;
    for part in 0..set.parts() {
        gone += gone_if(facts, words, set, part) as u128;
    }
    gone
}

/// What is known of a part in whose collection so many words stayed.
fn survivors(of: &Facts, now: u64) -> Facts
    ensures { result ≡ survived of.now now }
{
    let turn = of.turn.saturating_add(1);
    if of.used == 0 {
        return Facts {
            turn,
            fresh: 0,
            ..*of
        };
    }
    Facts {
        turn,
        used: now,
        kept: now,
        fresh: 0,
        last_live: now,
        last_used: of.used,
        ..*of
    }
}

/// What is known of a part after a collection of a set.
fn behind(of: &Facts, words: &Blocks, set: &Set) -> Facts
    requires parts { length set.now ≡ length words.now.words }
    requires below { of.now.part < length set.now }
    ensures { result ≡ fact_behind set.now (λ part. length (row words.now.words part)) of.now }
{
    if set.has(of.part) {
        survivors(of, words.used(of.part))
    } else {
        Facts {
            turn: of.turn.saturating_add(1),
            ..*of
        }
    }
}

/// Learns what is known of all parts after a collection of a set.
pub(crate) fn learn(facts: &mut List<Facts>, words: &Blocks, set: &Set)
    requires parts { length set.now ≡ length words.now.words }
    requires within { All (λ of. of.part < length set.now) facts.old }
    ensures { facts.new ≡ facts_behind set.now (λ part. length (row words.now.words part)) facts.old }
{
    for i in 0..facts.len() {
        let of = *facts.get(i);
        facts.set(i, behind(&of, words, set));
    }
}

/// Learns that an object of so many words was placed in a part.
#[inline]
pub(crate) fn learn_placed(facts: &mut List<Facts>, part: u32, words: u64)
    requires part { part < length facts.old }
    requires used { (slice_index_or facts.old part (first_facts false part)).used + words < 2 ^ 64 }
    requires fresh { (slice_index_or facts.old part (first_facts false part)).fresh + words < 2 ^ 64 }
    ensures { facts.new ≡ facts_with facts.old part words }
{
    let of = *facts.get(part as usize);
    let more = Facts {
        used: of.used + words,
        fresh: of.fresh + words,
        ..of
    };
    facts.set(part as usize, more);
}
