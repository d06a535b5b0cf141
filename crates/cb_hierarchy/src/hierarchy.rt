// Classes of which none is above itself.
ghost use Rattle.std.specs.Prelude.{◌≡◌, ◌<◌, ◌==◌, ◌&&◌, not, length, slice_get, IfOk, Some};
ghost use Rattle.cb_hierarchy.specs.Above.{IsAcyclic};
ghost use Rattle.cb_hierarchy.specs.Classes.{AreClasses, is_interface};
ghost use Rattle.cb_hierarchy.specs.Inner.{IsParentsFirst};
ghost use Rattle.cb_hierarchy.specs.Orders.{is_subclass, lookup_order, upwards};
ghost use Rattle.cb_hierarchy.specs.Selection.{in_one_package};

use crate::ancestors::{Ancestors, rows_of};
use crate::marks::Marks;
use crate::orders::{Lookup, Upwards};
use crate::parents_first::parents_first;
use crate::rule::lists_by;
use crate::{Class, Classes};
use cb_plain::{List, Numbers, OutOfMemory};
use std::alloc::Global;
use std::marker::Model;

/// Classes of which none is above itself. Contracts see it as the list of classes.
#[derive(Debug, Drop)]
pub struct Hierarchy {
    classes: Classes,
    order: Numbers,
    upward_lists: List<Numbers>,
    lookup_lists: List<Numbers>,
    lookup_rows: Vec<Marks>,
}

impl Model for Hierarchy {
    ghost use Rattle.std.specs.Prelude.{List};
    ghost use Rattle.cb_hierarchy.specs.declared.class.Class.{Class as Declaration};

    ghost Value = { List Declaration };

    ghost view = { λ hierarchy. hierarchy.classes };

    ghost use Rattle.cb_hierarchy.specs.InnerKept.{AreKept};

    ghost invariant = { λ hierarchy. AreKept hierarchy.classes hierarchy.order hierarchy.upward_lists hierarchy.lookup_lists hierarchy.lookup_rows.items };
}

impl Hierarchy {
    /// The hierarchy of classes. `OutOfMemory` where no memory was to be had. Takes time and memory in the square of the number
    /// of classes, and for each class in the parents of what is above it.
    pub fn of(alloc: Global, classes: Classes) -> Result<Self, OutOfMemory>
        requires classes { AreClasses classes }
        requires acyclic { IsAcyclic classes }
        ensures { IfOk result (λ hierarchy. hierarchy ≡ classes) }
    {
        let ancestors = Ancestors::of_parents(alloc, &classes)?;
        let order = parents_first(alloc, &classes, &ancestors)?;
        let upwards = Upwards { classes: &classes };
        let upward_lists = lists_by(alloc, &classes, order.as_slice(), &upwards)?;
        let lookup = Lookup { classes: &classes };
        let lookup_lists = lists_by(alloc, &classes, order.as_slice(), &lookup)?;
        let lookup_rows = rows_of(alloc, &lookup_lists)?;
        Ok(Hierarchy {
            classes,
            order,
            upward_lists,
            lookup_lists,
            lookup_rows,
        })
    }

    /// How many classes there are.
    pub fn len(&self) -> usize
        ensures { result ≡ length self.now }
    {
        self.classes.len()
    }

    /// The classes by their numbers.
    pub fn classes(&self) -> &Classes
        ensures { result.now ≡ self.now }
    {
        &self.classes
    }

    /// The classes, each behind its parents.
    pub(crate) fn parents_first(&self) -> &[u32]
        ensures order { IsParentsFirst self.now result.now }
        ensures classes { AreClasses self.now }
    {
        self.order.as_slice()
    }

    /// The class of a number.
    pub fn class(&self, number: u32) -> &Class
        requires { number < length self.now }
        ensures { slice_get self.now number ≡ Some result.now }
    {
        self.classes.get(number as usize)
    }

    /// Whether a number is that of an interface.
    pub(crate) fn is_interface(&self, number: u32) -> bool
        ensures { result ≡ is_interface self.now number }
    {
        match self.classes.as_slice().get(number as usize) {
            Some(class) => class.is_interface,
            None => false,
        }
    }

    /// Whether two numbers are those of classes of one run-time package.
    pub(crate) fn in_one_package(&self, one: u32, other: u32) -> bool
        ensures { result ≡ in_one_package self.now one other }
    {
        match (
            self.classes.as_slice().get(one as usize),
            self.classes.as_slice().get(other as usize),
        ) {
            (Some(one), Some(other)) => one.package == other.package,
            _ => false,
        }
    }

    /// A class, its superclass, the superclass of that one, and so on.
    pub fn upwards(&self, number: u32) -> &[u32]
        requires { number < length self.now }
        ensures { result.now ≡ upwards self.now number }
    {
        self.upward_lists.get(number as usize).as_slice()
    }

    /// A class and all that is above it, in the order in which a member is looked up (JVMS §5.4.3.2).
    pub fn lookup_order(&self, number: u32) -> &[u32]
        requires { number < length self.now }
        ensures { result.now ≡ lookup_order self.now number }
    {
        self.lookup_lists.get(number as usize).as_slice()
    }

    /// Whether a class is a proper subclass or subinterface of another one.
    pub(crate) fn is_below(&self, number: u32, other: u32) -> bool
        ensures { result ≡ (not (number == other) && is_subclass self.now number other) }
    {
        if number == other {
            return false;
        }
        if number as usize >= self.classes.len() {
            return false;
        }
        if other as usize >= self.classes.len() {
            return false;
        }
        self.is_subclass(number, other)
    }

    /// Whether a class is another one or below it.
    pub fn is_subclass(&self, number: u32, other: u32) -> bool
        requires number { number < length self.now }
        requires other { other < length self.now }
        ensures { result ≡ is_subclass self.now number other }
    {
        self.lookup_rows[number as usize].has(other)
    }
}
