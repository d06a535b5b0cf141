// Which method is run where one is invoked on an object.
ghost use Rattle.std.specs.Prelude.{◌≡◌, ◌<◌, ◌==◌, ℕ, length, vec_len, IfOk, IsSome, Some};
ghost use Rattle.cb_hierarchy.specs.Members.{method_of};
ghost use Rattle.cb_hierarchy.specs.InnerReaching.{AreAmong, AreFirst, IsRowBy, entry_among, entry_of, is_above, reach_own, reached_at};
ghost use Rattle.cb_hierarchy.specs.Resolution.{method_is, most_specific};
ghost use Rattle.cb_hierarchy.specs.Selection.{entry_at, selected};

use crate::entry::{Entry, Reached};
use crate::reach::{entry_of, reach_own};
use crate::specific::{most_specific_of, superinterface_methods};
use crate::{Hierarchy, MethodTable, Selected};
use cb_plain::OutOfMemory;
use std::alloc::Global;
use std::marker::Model;

/// For each class and each method, the method that is selected on an object of the class where that one was resolved. Contracts
/// see it as the rows of classes.
#[derive(Debug, Drop)]
pub struct Selection {
    rows: Vec<Vec<Entry>>,
}

impl Model for Selection {
    ghost use Rattle.std.specs.Prelude.{List, map};
    ghost use Rattle.cb_hierarchy.specs.InnerReaching.{entry_selected};
    ghost use Rattle.cb_hierarchy.specs.declared.selected.Selected.{Selected as Choice};

    ghost Value = { List (List Choice) };

    ghost view = { λ selection. map (λ row. map entry_selected row.items) selection.rows.items };
}

impl Selection {
    /// The table of a hierarchy and its methods. `OutOfMemory` where no memory was to be had. Takes memory in the number of
    /// classes times that of methods, and as much time, besides that for what is above each class.
    pub fn of(
        alloc: Global,
        hierarchy: &Hierarchy,
        methods: &MethodTable,
    ) -> Result<Self, OutOfMemory>
        ensures { IfOk result (λ selection. (class method : ℕ) → class < length hierarchy.now → method < length methods.now
            → entry_at selection class method ≡ Some (selected hierarchy.now methods.now class method)) }
    {
        let mut rows = empty_rows(alloc, hierarchy.len())?;
        for class in hierarchy.parents_first() {
            let superclass = hierarchy.class(*class).superclass;
            let row = row_of(
                alloc,
                hierarchy,
                methods,
                *class,
                superclass,
                rows.as_slice(),
            )?;
            rows[*class as usize] = row;
        }
        Ok(Selection { rows })
    }

    /// The entry of a class and a method: which method is selected on an object of the class, in constant time (JVMS §6.5
    /// invokevirtual, invokeinterface).
    pub fn select(&self, class: u32, method: u32) -> Selected
        requires { IsSome (entry_at self.now class method) }
        ensures { entry_at self.now class method ≡ Some result }
    {
        self.rows[class as usize][method as usize].selected()
    }
}

/// So many rows without entries.
fn empty_rows(alloc: Global, count: usize) -> Result<Vec<Vec<Entry>>, OutOfMemory>
    ensures { IfOk result (λ rows. vec_len rows ≡ count) }
{
    let mut rows = Vec::with_capacity(alloc, count)?;
    for _i in 0..count {
        rows.push(Vec::new(alloc))?;
    }
    Ok(rows)
}

/// The row of a class, by that of its superclass.
fn row_of(
    alloc: Global,
    hierarchy: &Hierarchy,
    methods: &MethodTable,
    class: u32,
    superclass: Option<u32>,
    rows: &[Vec<Entry>],
) -> Result<Vec<Entry>, OutOfMemory>
    requires { class < length hierarchy.now }
    ensures { IfOk result (λ row. IsRowBy hierarchy.now methods.now rows.now superclass class row.items) }
{
    let own = own_methods(alloc, methods, class)?;
    let among = all_among(alloc, hierarchy, methods, class)?;
    let mut row = Vec::with_capacity(alloc, methods.len())?;
    for resolved in 0..methods.count() {
        let signature = methods.signature(resolved);
        let above = reached_at(rows, superclass, resolved);
        let reached = reach_own(hierarchy, methods, resolved, own[signature as usize], above);
        row.push(entry_of(
            methods,
            reached,
            among[signature as usize].unwrap_or(Entry::Absent),
        ))?;
    }
    Ok(row)
}

/// What is reached from a superclass, by its row.
fn reached_at(rows: &[Vec<Entry>], superclass: Option<u32>, resolved: u32) -> Option<Reached>
    ensures { result ≡ reached_at rows.now superclass resolved }
{
    let row = rows.get(superclass? as usize)?;
    row.get(resolved as usize)?.reached()
}

/// The methods that a class declares, the first of each signature, by signatures.
fn own_methods(
    alloc: Global,
    methods: &MethodTable,
    class: u32,
) -> Result<Vec<Option<u32>>, OutOfMemory>
    ensures { IfOk result (λ own. AreFirst (length methods.now) (method_of methods.now class) own.items) }
{
    let mut own = vec![in alloc; None; methods.len()]?;
    for number in 0..methods.count() {
        let signature = methods.signature(number);
        if is_of(methods, number, class) && own[signature as usize].is_none() {
            own[signature as usize] = Some(number);
        }
    }
    Ok(own)
}

/// Whether a class declares a method.
fn is_of(methods: &MethodTable, method: u32, class: u32) -> bool
    ensures { result ≡ method_is methods.now (λ method. method.declared.class == class) method }
{
    match methods.get(method) {
        Some(method) => method.declared.class == class,
        None => false,
    }
}

/// What the superinterfaces of a class have, by signatures: nothing is made where none of them declares a method of the
/// signature.
fn all_among(
    alloc: Global,
    hierarchy: &Hierarchy,
    methods: &MethodTable,
    class: u32,
) -> Result<Vec<Option<Entry>>, OutOfMemory>
    requires { class < length hierarchy.now }
    ensures { IfOk result (λ among. AreAmong hierarchy.now methods.now class among.items) }
{
    let mut among = vec![in alloc; None; methods.len()]?;
    for number in 0..methods.count() {
        let signature = methods.signature(number);
        if among[signature as usize].is_none() && is_above(hierarchy, methods, class, number) {
            let entry = entry_among(alloc, hierarchy, methods, class, signature)?;
            among[signature as usize] = Some(entry);
        }
    }
    Ok(among)
}

/// Whether a method is declared by an interface that is above a class.
fn is_above(hierarchy: &Hierarchy, methods: &MethodTable, class: u32, method: u32) -> bool
    requires { class < length hierarchy.now }
    ensures { result ≡ is_above hierarchy.now methods.now class method }
{
    match methods.get(method) {
        Some(method) => {
            let interface = method.declared.class;
            hierarchy.is_interface(interface) && hierarchy.is_subclass(class, interface)
        }
        None => false,
    }
}

/// What the superinterfaces of a class have of a signature.
fn entry_among(
    alloc: Global,
    hierarchy: &Hierarchy,
    methods: &MethodTable,
    class: u32,
    signature: u32,
) -> Result<Entry, OutOfMemory>
    requires { class < length hierarchy.now }
    ensures { IfOk result (λ entry. entry ≡ entry_among (most_specific hierarchy.now methods.now class signature)) }
{
    let candidates = superinterface_methods(alloc, hierarchy, methods, class, signature)?;
    let specific = most_specific_of(alloc, hierarchy, methods, candidates.as_slice())?;
    Ok(only(specific.as_slice()))
}

/// What some methods come to.
fn only(specific: &[u32]) -> Entry
    ensures { result ≡ entry_among specific.now }
{
    match specific {
        [] => Entry::Absent,
        [method] => Entry::Inherited(*method),
        _ => Entry::Several,
    }
}
