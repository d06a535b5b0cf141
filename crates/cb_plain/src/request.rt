// What room is asked for at once.
ghost use Rattle.std.specs.Prelude.{◌≡◌, ◌<◌, ◌≤◌, ◌↔◌, ◌⊎◌, ◌==◌, [], length, position, slice_get, IsTrue, Some};
ghost use Rattle.cb_plain.specs.Requests.{add_want, has_site, spent, words_at};

use crate::Want;
use std::marker::Model;

// Words are counted as far as this.
const MOST_WORDS: u64 = 1 << 40;

/// The room that is asked for at once, for each site one entry, in the order in which the sites came: at most 256. It takes no memory.
/// Contracts see it as the list of its entries.
#[derive(Drop)]
pub struct Request {
    wants: [Want; 256],
    count: usize,
}

impl Model for Request {
    ghost use Rattle.std.specs.Prelude.{◌≡◌, ◌≤◌, length, take, List};
    ghost use Rattle.cb_plain.specs.declared.want.Want.{Want};

    ghost Value = { List Want };

    ghost view = { λ request. take request.count request.wants };

    ghost invariant = { λ request. (request.count ≤ 256) × (length request.wants ≡ 256) };
}

impl Request {
    /// The request for nothing.
    pub fn new() -> Request
        ensures { result ≡ [] }
    {
        Request {
            wants: [Want { site: 0, words: 0 }; 256],
            count: 0,
        }
    }

    /// How many sites it asks for.
    pub fn len(&self) -> u32
        ensures is { result ≡ length self.now }
        ensures most { result ≤ 256 }
    {
        self.count as u32
    }

    /// Whether it asks for nothing.
    pub fn is_empty(&self) -> bool
        ensures { IsTrue result ↔ (self.now ≡ []) }
    {
        self.count == 0
    }

    /// The entry at a place below the length.
    pub fn at(&self, i: u32) -> Want
        requires { i < length self.now }
        ensures { slice_get self.now i ≡ Some result }
    {
        self.wants[i as usize]
    }

    /// Asks for so many words more at a site, which is there already, or there are fewer than 256. Words are counted as far as 2^40. Takes
    /// time in the number of sites.
    pub fn add(&mut self, site: u32, words: u64)
        requires { IsTrue (has_site site self.old) ⊎ (length self.old < 256) }
        ensures { self.new ≡ add_want self.old (record { site = site; words = words }) }
    {
        match place_of(&self.wants[..self.count], site) {
            Some(place) => {
                let before = self.wants[place].words;
                self.wants[place].words = before.saturating_add(words).min(MOST_WORDS);
            }
            None => {
                self.wants[self.count] = Want {
                    site,
                    words: words.min(MOST_WORDS),
                };
                self.count += 1;
            }
        }
    }

    /// Takes so many words of those of a site. Takes time in the number of sites.
    pub fn spend(&mut self, site: u32, words: u64)
        requires { words ≤ words_at self.old site }
        ensures { self.new ≡ spent self.old site words }
    {
        if let Some(place) = place_of(&self.wants[..self.count], site) {
            self.wants[place].words -= words;
        }
    }

    /// Asks for what another one asks for, and nothing else. Takes time in the number of its sites.
    pub fn copy_from(&mut self, other: &Request)
        ensures { self.new ≡ other.now }
    {
        for i in 0..other.count {
            self.wants[i] = other.wants[i];
        }
        self.count = other.count;
    }

    /// Asks for nothing any more.
    pub fn clear(&mut self)
        ensures { self.new ≡ [] }
    {
        self.count = 0;
    }
}

/// The place of the entry of a site.
fn place_of(wants: &[Want], site: u32) -> Option<usize>
    ensures { result ≡ position (λ want. want.site == site) wants.now }
{
    wants.iter().position(|want| want.site == site)
}
