// What the collections of a run came to.
ghost use Rattle.std.specs.Prelude.{◌≡◌};
ghost use Rattle.cb_collector.specs.Collecting.{tally_behind};
ghost use Rattle.cb_collector.specs.Known.{counted};

/// How many collections there were of a set that was chosen and of all parts, how many words of their objects stayed, and how many went. A sum
/// stands still at the end of its type.
#[derive(Clone, Copy, Debug, Drop, Eq, PartialEq)]
pub struct Tally {
    /// Collections of a set that was chosen.
    pub partials: u128,
    /// Collections of all parts.
    pub fulls: u128,
    /// The words of the objects of the sets that stayed.
    pub visited: u128,
    /// The words of those that went.
    pub freed: u128,
}

impl Tally {
    /// With a collection more.
    pub(crate) fn count(&mut self, is_partial: bool, visited: u128, freed: u128)
        ensures { self.new ≡ tally_behind is_partial visited freed self.old }
    {
        if is_partial {
            self.partials = self.partials.saturating_add(1);
        } else {
            self.fulls = self.fulls.saturating_add(1);
        }
        self.visited = self.visited.saturating_add(visited);
        self.freed = self.freed.saturating_add(freed);
    }
}

/// One more, where the number isn't the greatest of its type.
pub(crate) fn one_more(number: u64) -> u64
    ensures { result ≡ counted number }
{
    number.saturating_add(1)
}
