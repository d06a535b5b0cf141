// The uses of a class's texts.
ghost use Rattle.std.specs.Prelude.{◌≡◌, ◌∷◌, ◌++◌, [], false, OnOk};
ghost use Rattle.std.specs.List.{list_any};
ghost use Rattle.cb_load.specs.InnerUses.{is_use};

use cb_plain::OutOfMemory;
use indexmap::IndexSet;
use std::alloc::Global;
use std::marker::Model;

/// A text that is used as the name of a class, or as a descriptor.
#[derive(Clone, Copy, PartialEq, Eq, Hash)]
pub(crate) struct Use {
    /// The index of the text.
    pub(crate) text: u16,
    /// Whether it is the name of a class.
    pub(crate) is_name: bool,
    /// Whether its classes are needed.
    pub(crate) needed: bool,
}

/// Uses of texts, each once. Contracts see them as a list.
#[derive(Drop)]
pub(crate) struct Uses {
    uses: IndexSet<Use>,
}

impl Model for Uses {
    ghost use Rattle.std.specs.Prelude.{List};
    ghost use Rattle.cb_load.specs.declared.uses.Use.{Use as AnyUse};

    ghost Value = { List AnyUse };

    ghost view = { λ uses. uses.uses.keys };
}

impl Uses {
    /// No uses. It takes memory from `alloc` as uses are added.
    pub(crate) fn new(alloc: Global) -> Self
        ensures { result ≡ [] }
    {
        Uses {
            uses: IndexSet::new(alloc),
        }
    }

    /// Whether this use is there.
    pub(crate) fn has(&self, usage: Use) -> bool
        ensures { result ≡ list_any (is_use usage) self.now }
    {
        self.uses.contains(&usage)
    }

    /// Adds a use that isn't there.
    pub(crate) fn add(&mut self, usage: Use) -> Result<(), OutOfMemory>
        requires { list_any (is_use usage) self.old ≡ false }
        ensures { OnOk result (self.new ≡ self.old ++ usage ∷ []) }
    {
        self.uses.insert(usage)?;
        Ok(())
    }
}
