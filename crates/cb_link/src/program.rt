// A linked program.
use crate::all_tables::Tables;
use crate::base::Base;
use cb_classfile::ClassFile;
use std::marker::Model;

/// A linked program. Contracts see it as a record of what linking found. What a running machine asks of it is answered from
/// tables, in constant time and without memory.
#[derive(Drop)]
pub struct Program {
    pub(crate) base: Base,
    pub(crate) tables: Tables,
}

impl Model for Program {
    ghost use Rattle.cb_link.specs.Program.{Linked};
    ghost use Rattle.cb_link.specs.InnerTables.{HasTables};

    ghost Value = { Linked };

    ghost view = { λ program. program.base };

    ghost invariant = { λ program. HasTables program.base program.tables };
}

impl Program {
    ghost use Rattle.std.specs.Prelude.{◌≡◌, ◌<◌, length, slice_get, Some};
    ghost use Rattle.cb_link.specs.Having.{site_kinds};
    ghost use Rattle.cb_link.specs.InnerTables.{HasTables};

    /// The program with the tables that were made of what linking numbered.
    #[tactic(none)]
    pub(crate) fn of(base: Base, tables: Tables) -> Self
        requires { HasTables base tables }
        ensures { result ≡ base }
    {
        Program { base, tables }
    }

    /// How many classes the program has, the library's fifty among them.
    pub fn class_count(&self) -> usize
        ensures { result ≡ length self.now.classes }
    {
        self.base.resolver.classes.len()
    }

    /// The record of a class, by its number.
    pub fn class(&self, number: usize) -> &ClassFile
        requires { number < length self.now.classes }
        ensures { slice_get self.now.classes number ≡ Some result.now }
    {
        self.base.resolver.classes.get(number)
    }

    /// How many kinds of objects the program has, its classes among them.
    pub fn kind_count(&self) -> u32
        ensures { result ≡ length self.now.kinds }
    {
        self.base.kinds.len() as u32
    }

    /// The name of a kind, by its number: a class's, or an array's descriptor (JVMS §4.4.1).
    pub fn kind_name(&self, kind: u32) -> &[u16]
        requires { kind < length self.now.kinds }
        ensures { slice_get self.now.kinds kind ≡ Some result.now }
    {
        self.base.kinds.text(kind)
    }

    /// How many texts of strings the program has, that of the error of a division by zero among them.
    pub fn constant_count(&self) -> u32
        ensures { result ≡ length self.now.constants }
    {
        self.base.constants.len() as u32
    }

    /// The text of a string, by its number.
    pub fn constant(&self, number: u32) -> &[u16]
        requires { number < length self.now.constants }
        ensures { slice_get self.now.constants number ≡ Some result.now }
    {
        self.base.constants.text(number)
    }

    /// How many sites the program has, the machine's own among them, which come first.
    pub fn site_count(&self) -> u32
        ensures { result ≡ length (site_kinds self.now) }
    {
        (self.base.fixed.len() + self.base.sites.len()) as u32
    }

    /// The number of the kind of a site's objects.
    pub fn site_kind(&self, site: u32) -> u32
        requires { site < length (site_kinds self.now) }
        ensures kind { slice_get (site_kinds self.now) site ≡ Some result }
        ensures within { result < length self.now.kinds }
    {
        let place = site as usize;
        let fixed = self.base.fixed.len();
        if place < fixed {
            *self.base.fixed.get(place)
        } else {
            self.base.sites.get(place - fixed).kind
        }
    }
}
