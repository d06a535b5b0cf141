// Rules that reckon survivors.
ghost use Rattle.std.specs.Prelude.{◌≡◌, ℕ, Some};
ghost use Rattle.cb_plain.specs.Estimates.{AreFacts, survive};
ghost use Rattle.cb_plain.specs.declared.facts.Facts.{Facts as FactsSeen};

use cb_plain::{Facts, Name};

/// What reckons survivors.
pub type Estimate = Box<dyn Fn(Facts) -> u64>;

/// A rule by which survivors are reckoned: its name, the code of the estimate, and what answers it, which it keeps with the fact that it answers the
/// survivors of this code, wherever the rule is moved.
#[derive(Drop)]
pub struct Rule {
    pub name: Name,
    pub code: u32,
    call: Estimate,
    ghost callable: { (facts : FactsSeen) → AreFacts facts → Estimate.pre call facts },
    ghost answers: { (facts : FactsSeen) (answer : ℕ) → AreFacts facts → Estimate.post call facts answer → survive code facts ≡ Some answer },
}

impl Rule {
    /// The rule of this name and code, which answers by this closure. The code is one of an estimate, the closure may be called on all facts that hold of
    /// parts, and it answers the survivors of the code.
    pub fn make(name: Name, code: u32, call: Estimate) -> Rule
        requires callable { (facts : FactsSeen) → AreFacts facts → Estimate.pre call facts }
        requires answers { (facts : FactsSeen) (answer : ℕ) → AreFacts facts → Estimate.post call facts answer → survive code facts ≡ Some answer }
        ensures name { result.name ≡ name }
        ensures code { result.code ≡ code }
    {
        Rule { name, code, call }
    }

    /// Its name.
    pub fn name(&self) -> &Name
        ensures { result.now ≡ self.now.name }
    {
        &self.name
    }

    /// The code of its estimate.
    pub fn code(&self) -> u32
        ensures { result ≡ self.now.code }
    {
        self.code
    }

    /// How many words of a part are reckoned to survive, of what is known of it. Takes no memory.
    pub fn estimate(&self, facts: Facts) -> u64
        requires { AreFacts facts }
        ensures { survive self.now.code facts ≡ Some result }
    {
        (self.call)(facts)
    }
}
