// The names of the classes that are there.
ghost use Rattle.std.specs.Prelude.{◌≡◌, ◌||◌, ℕ, List, [], IfOk, OnOk};
ghost use Rattle.std.specs.List.{list_any};
ghost use Rattle.cb_link.specs.Numbers.{same_name, is_named};

use cb_classfile::ClassFile;
use std::alloc::{AllocError, Global};
use std::collections::BTreeSet;
use std::marker::Model;

/// Names of classes, which contracts see as a list of them.
#[derive(Drop)]
pub(crate) struct ClassNames {
    alloc: Global,
    names: BTreeSet<Vec<u16>>,
}

impl Model for ClassNames {
    ghost use Rattle.std.specs.Prelude.{ℕ, List, map};

    ghost Value = { List (List ℕ) };

    ghost view = { λ names. map (λ name. name.items) names.names.keys };
}

impl ClassNames {
    /// The names of classes. Takes time in the number of classes, times its logarithm.
    pub(crate) fn of(alloc: Global, classes: &[ClassFile]) -> Result<Self, AllocError>
        ensures { IfOk result (λ names. (name : List ℕ) → list_any (same_name name) names ≡ list_any (is_named name) classes.now) }
    {
        let mut names = ClassNames::none(alloc);
        for class in classes {
            names.insert_name_of(class)?;
        }
        Ok(names)
    }

    /// No names.
    pub(crate) fn none(alloc: Global) -> Self
        ensures { result ≡ [] }
    {
        ClassNames {
            alloc,
            names: BTreeSet::new(alloc),
        }
    }

    /// Whether a name is among them.
    pub(crate) fn has(&self, name: &[u16]) -> bool
        ensures { result ≡ list_any (same_name name.now) self.now }
    {
        self.names.contains(name)
    }

    /// Adds a name.
    pub(crate) fn insert(&mut self, name: &[u16]) -> Result<(), AllocError>
        ensures { OnOk result ((other : List ℕ) → list_any (same_name other) self.new ≡ (same_name other name.now || list_any (same_name other) self.old)) }
    {
        let key = Vec::from_slice(self.alloc, name)?;
        self.names.insert(key)?;
        Ok(())
    }

    /// Adds the name of a class.
    fn insert_name_of(&mut self, class: &ClassFile) -> Result<(), AllocError>
        ensures { OnOk result ((other : List ℕ) → list_any (same_name other) self.new ≡ (is_named other class.now || list_any (same_name other) self.old)) }
    {
        match class.pool.class(class.this_class) {
            Some(name) => self.insert(name),
            None => Ok(()),
        }
    }
}
