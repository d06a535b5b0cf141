// Members of classes by numbers.
ghost use Rattle.std.specs.Prelude.{◌≡◌, ◌++◌, ℕ, List as Items, map, IfOk, OnOk};
ghost use Rattle.cb_classfile.specs.declared.class.ClassFile.{ClassFile as AnyClass};
ghost use Rattle.cb_link.specs.Numbers.{Numbered, numbered};
ghost use Rattle.cb_link.specs.Places.{numbered_in};

use cb_classfile::ClassFile;
use cb_kinds::Texts;
use cb_plain::{List, OutOfMemory, number_of};
use cb_text::Pool;
use std::alloc::Global;

/// A member of a class that a program numbers.
pub(crate) trait Numbering: Sized {
    /// What a program has of it.
    type Linked: Drop;

    /// The members of a class.
    ghost members: { AnyClass → Items Self };

    /// What a program has of one, where kinds have these names.
    ghost entry_of: { Items (Items ℕ) → Numbered Self → Self.Linked };

    /// The members of a class.
    fn of_class(class: &ClassFile) -> &[Self]
        ensures { result.now ≡ members class.now };

    /// What a program has of the one at a place of a class.
    fn link(
        &self,
        alloc: Global,
        class: u32,
        place: u32,
        pool: &Pool,
        kinds: &Texts,
    ) -> Result<Self::Linked, OutOfMemory>
        ensures { IfOk result (λ linked. linked ≡ entry_of kinds.now (record { class = class; place = place; pool = pool.now; member = self.now })) };
}

/// What a program has of the members of classes: by class, and then as the class lists them.
pub(crate) fn by_number<T: Numbering>(
    alloc: Global,
    classes: &[ClassFile],
    kinds: &Texts,
) -> Result<List<T::Linked>, OutOfMemory>
    ensures { IfOk result (λ list. list ≡ map (T.entry_of kinds.now) (numbered T.members classes.now)) }
{
    let mut list = List::new(alloc);
    for (index, class) in classes.iter().enumerate() {
        add_members::<T>(alloc, number_of(index)?, class, kinds, &mut list)?;
    }
    Ok(list)
}

/// Adds what a program has of the members of a class.
fn add_members<T: Numbering>(
    alloc: Global,
    number: u32,
    class: &ClassFile,
    kinds: &Texts,
    list: &mut List<T::Linked>,
) -> Result<(), OutOfMemory>
    ensures { OnOk result (list.new ≡ list.old ++ map (T.entry_of kinds.now) (numbered_in T.members (number, class.now))) }
{
    let members = T::of_class(class);
    for (index, member) in members.iter().enumerate() {
        let place = number_of(index)?;
        let linked = member.link(alloc, number, place, &class.pool, kinds)?;
        list.push(linked)?;
    }
    Ok(())
}
