// An entry of the table of selected methods.
ghost use Rattle.std.specs.Prelude.{◌≡◌};
ghost use Rattle.cb_hierarchy.specs.InnerReaching.{entry_selected, reached_in};

use crate::Selected;

/// What is selected for a class and a resolved method, with what the table has to know of it for the subclasses. It takes eight
/// bytes, since fields lie in the order of the source.
#[derive(Clone, Copy, Debug)]
pub(crate) enum Entry {
    /// A method of the class or of a superclass.
    Upwards {
        is_abstract: bool,
        is_open: bool,
        method: u32,
    },
    /// The only method of superinterfaces.
    Inherited(u32),
    /// No method.
    Absent,
    /// Several methods of superinterfaces.
    Several,
}

const _: () = prove!(size_of::<Entry>() == 8);

/// The method that overrides a resolved one and is the nearest upwards, or that one itself.
#[derive(Clone, Copy, Debug)]
pub(crate) struct Reached {
    pub(crate) method: u32,
    /// Whether what overrides that method overrides the resolved one whatever its package: a public or protected method
    /// upwards is of the resolved one's package (JVMS §5.4.5).
    pub(crate) is_open: bool,
}

impl Entry {
    /// What is selected.
    pub(crate) fn selected(self) -> Selected
        ensures { result ≡ entry_selected self }
    {
        match self {
            Entry::Upwards {
                method,
                is_abstract,
                ..
            } => {
                if is_abstract {
                    Selected::Abstract
                } else {
                    Selected::Method(method)
                }
            }
            Entry::Inherited(method) => Selected::Method(method),
            Entry::Absent => Selected::Abstract,
            Entry::Several => Selected::Several,
        }
    }

    /// The method upwards.
    pub(crate) fn reached(self) -> Option<Reached>
        ensures { result ≡ reached_in self }
    {
        match self {
            Entry::Upwards {
                method,
                is_open,
                ..
            } => Some(Reached { method, is_open }),
            _ => None,
        }
    }
}
