// The constants of a pool as they are numbered, each where it is first used.
ghost use Rattle.std.specs.Prelude.{◌≡◌, ◌∷◌, ◌++◌, [], List, IfOk, MatchResult};
ghost use Rattle.cb_asm_record.specs.Constants.{constant_of, firsts, index_of};
ghost use Rattle.cb_asm_record.specs.Entries.{Class, Entry, NameAndType, Text, with_parts};
ghost use Rattle.cb_asm_record.specs.Inner.{ArePartsOf, Holds, IsHopeless, key_entry, parts_of};

use crate::key::Key;
use crate::stop::Stop;
use cb_plain::OutOfMemory;
use cb_text::{Constant, Pool, Units};
use std::alloc::Global;
use std::collections::BTreeMap;

/// The constants that were used so far, with their indices.
#[derive(Drop)]
pub(crate) struct Numbering<'a> {
    pub(crate) pool: Pool,
    pub(crate) indices: BTreeMap<Key<'a>, u16>,
}

impl<'a> Numbering<'a> {
    /// The index of a constant, or that of the next one where it isn't there.
    pub(crate) fn index(&self, key: Key<'a>) -> u16
        ensures { (used : List Entry) → Holds used self.now.pool self.now.indices
            → result ≡ index_of (firsts used) (key_entry key.entry) }
    {
        match self.indices.get(&key) {
            Some(index) => *index,
            None => self.pool.len(),
        }
    }

    /// The constant of a key, with the indices of its parts.
    fn constant(&self, alloc: Global, key: Key<'a>) -> Result<Constant, OutOfMemory>
        ensures { (used : List Entry) → Holds used self.now.pool self.now.indices
            → IfOk result (λ constant. constant ≡ constant_of (firsts used) (key_entry key.entry)) }
    {
        Ok(match key {
            Key::Text(text) => Constant::Utf8(units_of(alloc, text)?),
            Key::Int(number) => Constant::Integer(number.cast_unsigned()),
            Key::Long(number) => Constant::Long(number.cast_unsigned()),
            Key::Class(name) => Constant::Class(self.index(Key::Text(name))),
            Key::String(text) => Constant::String(self.index(Key::Text(text))),
            Key::NameAndType(name, descriptor) => Constant::NameAndType(
                self.index(Key::Text(name)),
                self.index(Key::Text(descriptor)),
            ),
            Key::Field(class, name, descriptor) => Constant::Fieldref(
                self.index(Key::Class(class)),
                self.index(Key::NameAndType(name, descriptor)),
            ),
            Key::Method(class, name, descriptor) => Constant::Methodref(
                self.index(Key::Class(class)),
                self.index(Key::NameAndType(name, descriptor)),
            ),
            Key::InterfaceMethod(class, name, descriptor) => Constant::InterfaceMethodref(
                self.index(Key::Class(class)),
                self.index(Key::NameAndType(name, descriptor)),
            ),
        })
    }

    /// Uses a constant whose parts are there.
    fn add(&mut self, alloc: Global, key: Key<'a>) -> Result<(), Stop>
        ensures { (used : List Entry) → Holds used self.old.pool self.old.indices → ArePartsOf used (key_entry key.entry)
            → MatchResult result (λ _. Holds (used ++ key_entry key.entry ∷ []) self.new.pool self.new.indices)
            (IsHopeless (used ++ key_entry key.entry ∷ [])) }
    {
        if self.indices.contains_key(&key) {
            return Ok(());
        }
        let constant = self.constant(alloc, key)?;
        if !self.pool.admits(&constant) {
            return Err(Stop::NoRecord);
        }
        let index = self.pool.push(constant)?;
        self.indices.insert(key, index)?;
        Ok(())
    }

    /// Uses a class.
    fn add_class(&mut self, alloc: Global, class: &'a [u16]) -> Result<(), Stop>
        ensures { (used : List Entry) → Holds used self.old.pool self.old.indices
            → let all = Text class.now ∷ Class class.now ∷ [] in
            MatchResult result (λ _. Holds (used ++ all) self.new.pool self.new.indices) (IsHopeless (used ++ all)) }
    {
        self.add(alloc, Key::Text(class))?;
        self.add(alloc, Key::Class(class))
    }

    /// Uses the parts of a name and type.
    fn add_texts(
        &mut self,
        alloc: Global,
        name: &'a [u16],
        descriptor: &'a [u16],
    ) -> Result<(), Stop>
        ensures { (used : List Entry) → Holds used self.old.pool self.old.indices
            → let all = Text name.now ∷ Text descriptor.now ∷ [] in
            MatchResult result (λ _. Holds (used ++ all) self.new.pool self.new.indices) (IsHopeless (used ++ all)) }
    {
        self.add(alloc, Key::Text(name))?;
        self.add(alloc, Key::Text(descriptor))
    }

    /// Uses a name and type.
    fn add_type(
        &mut self,
        alloc: Global,
        name: &'a [u16],
        descriptor: &'a [u16],
    ) -> Result<(), Stop>
        ensures { (used : List Entry) → Holds used self.old.pool self.old.indices
            → let all = Text name.now ∷ Text descriptor.now ∷ NameAndType name.now descriptor.now ∷ [] in
            MatchResult result (λ _. Holds (used ++ all) self.new.pool self.new.indices) (IsHopeless (used ++ all)) }
    {
        self.add_texts(alloc, name, descriptor)?;
        self.add(alloc, Key::NameAndType(name, descriptor))
    }

    /// Uses the parts of a field or method.
    fn add_member(
        &mut self,
        alloc: Global,
        class: &'a [u16],
        name: &'a [u16],
        descriptor: &'a [u16],
    ) -> Result<(), Stop>
        ensures { (used : List Entry) → Holds used self.old.pool self.old.indices
            → let all = Text class.now ∷ Class class.now ∷ Text name.now ∷ Text descriptor.now ∷ NameAndType name.now descriptor.now ∷ [] in
            MatchResult result (λ _. Holds (used ++ all) self.new.pool self.new.indices) (IsHopeless (used ++ all)) }
    {
        self.add_class(alloc, class)?;
        self.add_type(alloc, name, descriptor)
    }

    /// Uses the parts of a constant.
    fn add_parts(&mut self, alloc: Global, key: Key<'a>) -> Result<(), Stop>
        ensures { (used : List Entry) → Holds used self.old.pool self.old.indices
            → MatchResult result (λ _. Holds (used ++ parts_of (key_entry key.entry)) self.new.pool self.new.indices)
            (IsHopeless (used ++ parts_of (key_entry key.entry))) }
    {
        match key {
            Key::Class(text) | Key::String(text) => self.add(alloc, Key::Text(text)),
            Key::NameAndType(name, descriptor) => self.add_texts(alloc, name, descriptor),
            Key::Field(class, name, descriptor)
            | Key::Method(class, name, descriptor)
            | Key::InterfaceMethod(class, name, descriptor) => {
                self.add_member(alloc, class, name, descriptor)
            }
            _ => Ok(()),
        }
    }

    /// Uses a constant, and its parts before it.
    pub(crate) fn enter(&mut self, alloc: Global, key: Key<'a>) -> Result<(), Stop>
        ensures { (used : List Entry) → Holds used self.old.pool self.old.indices
            → MatchResult result (λ _. Holds (used ++ with_parts (key_entry key.entry)) self.new.pool self.new.indices)
            (IsHopeless (used ++ with_parts (key_entry key.entry))) }
    {
        self.add_parts(alloc, key)?;
        self.add(alloc, key)
    }
}

/// A copy of a text.
fn units_of(alloc: Global, text: &[u16]) -> Result<Units, OutOfMemory>
    ensures { IfOk result (λ units. units ≡ text.now) }
{
    let mut units = Units::with_capacity(alloc, text.len())?;
    for unit in text {
        units.push(*unit)?;
    }
    Ok(units)
}
