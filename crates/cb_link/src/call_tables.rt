// What is asked of methods that are run.
ghost use Rattle.std.specs.Prelude.{◌≡◌, length, option_and_then, IfOk};
ghost use Rattle.cb_hierarchy.specs.Members.{method_of};
ghost use Rattle.cb_link.specs.Calls.{initial_parents, initialiser};
ghost use Rattle.cb_link.specs.InnerCounts.{HasSelection};
ghost use Rattle.cb_link.specs.InnerTables.{AreAll, IsCallTables};

use crate::base::Base;
use crate::resolver::Resolver;
use cb_hierarchy::{MethodTable, Selection, initialised_before};
use cb_plain::{List, Numbers, OutOfMemory, number_of};
use std::alloc::Global;

/// The name of the initialiser of a class, and its descriptor (JVMS §2.9).
const INITIALISER: &[u16] = &[
    b'<' as u16,
    b'c' as u16,
    b'l' as u16,
    b'i' as u16,
    b'n' as u16,
    b'i' as u16,
    b't' as u16,
    b'>' as u16,
];

const INITIALISER_TYPE: &[u16] = &[b'(' as u16, b')' as u16, b'V' as u16];

/// What is asked of methods that are run: which is selected on an object; by class, the classes that are initialised before it;
/// and its own initialiser.
#[derive(Drop)]
pub(crate) struct CallTables {
    pub(crate) selection: Selection,
    pub(crate) parents: List<Numbers>,
    pub(crate) initialisers: List<Option<u32>>,
}

impl CallTables {
    /// The tables of a program. `OutOfMemory` where no memory was to be had. Takes time and memory in the classes, times the
    /// methods, besides that for what is above each class.
    pub(crate) fn of(alloc: Global, base: &Base) -> Result<Self, OutOfMemory>
        ensures { IfOk result (IsCallTables base.now) }
    {
        Ok(CallTables {
            selection: selection_of(alloc, &base.resolver)?,
            parents: parents_of(alloc, &base.resolver)?,
            initialisers: initialisers_of(alloc, &base.resolver)?,
        })
    }
}

/// Which methods are selected on objects of classes.
fn selection_of(alloc: Global, resolver: &Resolver) -> Result<Selection, OutOfMemory>
    ensures { IfOk result (HasSelection resolver.now) }
{
    Selection::of(alloc, resolver.hierarchy(), resolver.methods())
}

/// By class, those that are initialised before it.
fn parents_of(alloc: Global, resolver: &Resolver) -> Result<List<Numbers>, OutOfMemory>
    ensures { IfOk result (AreAll (length resolver.now) (initial_parents resolver.now)) }
{
    initialised_before(alloc, resolver.hierarchy(), resolver.methods())
}

/// By class, its own initialiser.
fn initialisers_of(alloc: Global, resolver: &Resolver) -> Result<List<Option<u32>>, OutOfMemory>
    ensures { IfOk result (AreAll (length resolver.now) (initialiser resolver.now)) }
{
    let signature = resolver.method_signature(INITIALISER, INITIALISER_TYPE);
    let mut initialisers = List::new(alloc);
    for index in 0..resolver.classes.len() {
        let class = number_of(index)?;
        initialisers.push(declared(resolver.methods(), class, signature))?;
    }
    Ok(initialisers)
}

/// The number of the method of a signature that a class declares, if there are both.
fn declared(methods: &MethodTable, class: u32, signature: Option<u32>) -> Option<u32>
    ensures { result ≡ option_and_then (λ signature. method_of methods.now class signature) signature }
{
    methods.declared(class, signature?)
}
