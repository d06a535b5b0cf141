// The options of the command `run`.
ghost use Rattle.std.specs.Prelude.{◌≡◌, ℕ, codes, map, string_bytes, MatchOption, None};
ghost use Rattle.cb_runner.specs.Inner.{AddsFirst, TakesAll, TakesOptions, TellsOption, given_of};
ghost use Rattle.cb_runner.specs.Words.{Given};

use crate::option::value_told;

/// How many steps a run makes at most, how many frames may stand, and how many blocks a heap has at most: the most that may be told, and what is usual.
const MOST_STEPS: u64 = 10_000_000_000;

const USUAL_STEPS: u64 = 1_000_000_000;

const MOST_FRAMES: u64 = 65_536;

const USUAL_FRAMES: u32 = 4_096;

const MOST_BLOCKS: u64 = 1_048_576;

const USUAL_BLOCKS: u32 = 16_384;

/// The limits of a run, and the words behind the options that told them.
#[derive(Clone, Copy, Debug)]
pub(crate) struct Limits<'a> {
    pub steps: u64,
    pub frames: u32,
    pub blocks: u32,
    pub rest: &'a [String],
}

/// What options told.
#[derive(Clone, Copy, Debug)]
pub(crate) struct GivenOptions {
    pub steps: Option<u64>,
    pub frames: Option<u32>,
    pub blocks: Option<u32>,
}

/// What options told, and the words behind them.
#[derive(Clone, Copy, Debug)]
struct Taken<'a> {
    told: GivenOptions,
    rest: &'a [String],
}

/// Takes the options from the front of words, in any order.
pub(crate) fn limits_of(words: &[String]) -> Limits<'_>
    ensures { TakesOptions result.steps result.frames result.blocks (map string_bytes words.now) (map string_bytes result.rest.now) }
{
    let none = GivenOptions {
        steps: None,
        frames: None,
        blocks: None,
    };
    let taken = take_all(none, words);
    Limits {
        steps: taken.told.steps.unwrap_or(USUAL_STEPS),
        frames: taken.told.frames.unwrap_or(USUAL_FRAMES),
        blocks: taken.told.blocks.unwrap_or(USUAL_BLOCKS),
        rest: taken.rest,
    }
}

/// Takes the options from the front of words that weren't told before.
fn take_all<'a>(told: GivenOptions, words: &'a [String]) -> Taken<'a>
    ensures { TakesAll (given_of told) (given_of result.told) (map string_bytes words.now) (map string_bytes result.rest.now) }
{
    match next_told(told, words) {
        Some(next) => take_all(next, &words[2..]),
        None => Taken { told, rest: words },
    }
}

/// What is told with the option at the front of words, unless it was told before.
fn next_told(told: GivenOptions, words: &[String]) -> Option<GivenOptions>
    ensures { MatchOption result ((next : Given) → AddsFirst (given_of told) next (map string_bytes words.now) → ⊥)
        (λ next. AddsFirst (given_of told) (given_of next) (map string_bytes words.now)) }
{
    if let Some(next) = steps_told(told, words) {
        return Some(next);
    }
    if let Some(next) = frames_told(told, words) {
        return Some(next);
    }
    blocks_told(told, words)
}

/// What is told with `--steps` at the front of words, unless it was told before.
fn steps_told(told: GivenOptions, words: &[String]) -> Option<GivenOptions>
    ensures { MatchOption result ((value : ℕ) → told.steps ≡ None → TellsOption (codes "--steps") 10000000000 value (map string_bytes words.now) → ⊥)
        (λ next. AddsFirst (given_of told) (given_of next) (map string_bytes words.now)) }
{
    if told.steps.is_some() {
        return None;
    }
    match value_told("--steps", MOST_STEPS, words) {
        Some(value) => Some(GivenOptions {
            steps: Some(value),
            ..told
        }),
        None => None,
    }
}

/// What is told with `--frames` at the front of words, unless it was told before.
fn frames_told(told: GivenOptions, words: &[String]) -> Option<GivenOptions>
    ensures { MatchOption result ((value : ℕ) → told.frames ≡ None → TellsOption (codes "--frames") 65536 value (map string_bytes words.now) → ⊥)
        (λ next. AddsFirst (given_of told) (given_of next) (map string_bytes words.now)) }
{
    if told.frames.is_some() {
        return None;
    }
    match value_told("--frames", MOST_FRAMES, words) {
        Some(value) => Some(GivenOptions {
            frames: Some(value as u32),
            ..told
        }),
        None => None,
    }
}

/// What is told with `--blocks` at the front of words, unless it was told before.
fn blocks_told(told: GivenOptions, words: &[String]) -> Option<GivenOptions>
    ensures { MatchOption result ((value : ℕ) → told.blocks ≡ None → TellsOption (codes "--blocks") 1048576 value (map string_bytes words.now) → ⊥)
        (λ next. AddsFirst (given_of told) (given_of next) (map string_bytes words.now)) }
{
    if told.blocks.is_some() {
        return None;
    }
    match value_told("--blocks", MOST_BLOCKS, words) {
        Some(value) => Some(GivenOptions {
            blocks: Some(value as u32),
            ..told
        }),
        None => None,
    }
}
