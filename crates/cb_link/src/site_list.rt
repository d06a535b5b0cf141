// Sites, of which there are few.
ghost use Rattle.std.specs.Prelude.{◌≡◌, ◌+◌, ◌≤◌, [], ◌∷◌, ◌++◌, length, IfErr, OnOk};
ghost use Rattle.cb_link.specs.Inner.{IsTooMany};
ghost use Rattle.cb_link.specs.Judging.{site_limit};
ghost use Rattle.cb_link.specs.Making.{fixed_kinds};
ghost use Rattle.cb_link.specs.InnerSites.{Exceeds};

use crate::fixed::FIXED_KINDS;
use crate::{Quantity, Refusal, Site, Sites};
use std::alloc::Global;
use std::marker::Model;

/// The most sites, the machine's own among them.
const SITE_LIMIT: usize = 16_384;

/// Sites of instructions, so few that there are not too many with the machine's own. Contracts see them as a list.
#[derive(Drop)]
pub(crate) struct SiteList {
    sites: Sites,
}

impl Model for SiteList {
    ghost use Rattle.std.specs.Prelude.{List, ◌+◌, ◌≤◌, length};
    ghost use Rattle.cb_link.specs.declared.linked.Site.{Site as AnySite};
    ghost use Rattle.cb_link.specs.Judging.{site_limit};
    ghost use Rattle.cb_link.specs.Making.{fixed_kinds};

    ghost Value = { List AnySite };

    ghost view = { λ list. list.sites };

    ghost invariant = { λ list. length fixed_kinds + length list.sites ≤ site_limit };
}

impl SiteList {
    /// No sites. It takes memory from `alloc` as sites are added.
    pub(crate) fn new(alloc: Global) -> Self
        ensures { result ≡ [] }
    {
        SiteList {
            sites: Sites::new(alloc),
        }
    }

    /// Adds a site. Refused where there would be too many, or where no memory was to be had.
    pub(crate) fn push(&mut self, site: Site) -> Result<(), Refusal>
        ensures added { OnOk result (self.new ≡ self.old ++ site ∷ []) }
        ensures refused { IfErr result (IsTooMany (Exceeds self.old 1)) }
    {
        if self.sites.len() >= SITE_LIMIT - FIXED_KINDS.len() {
            return Err(Refusal::TooLarge {
                what: Quantity::Sites,
                count: SITE_LIMIT as u64 + 1,
                limit: SITE_LIMIT as u64,
            });
        }
        self.sites.push(site)?;
        Ok(())
    }

    /// The sites.
    pub(crate) fn into_sites(self) -> Sites
        ensures all { result ≡ self }
        ensures few { length fixed_kinds + length result ≤ site_limit }
    {
        self.sites
    }
}
