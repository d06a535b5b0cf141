// What a store of cells keeps and empties, and the trial of stores over it.
use crate::cells::{CellStore, holds, is_closed};
use crate::none::no_roots;
use crate::stop::Stop;
use cb_heap::Store;
use cb_plain::Request;
use cb_store_trial::linked;
use std::alloc::Global;

/// Places three objects, of which a root names the first, which refers to the second, and collects. Tells whether the third is held, whether the
/// root still names the first, and the number that is read through that.
pub(crate) fn tell(alloc: Global, told: &mut String) -> Result<(), Stop> {
    let mut store = CellStore::new();
    let mut roots = no_roots(alloc)?;
    if !is_closed(&store, &roots) {
        return Err(Stop::Refused);
    }
    let mut request = Request::new();
    request.add(0, 12);
    store.make_room(&request, &mut roots)?;
    let one = store.place(0, 1, 1);
    let other = store.place(0, 0, 1);
    let third = store.place(0, 1, 1);
    if !store.has_number(other) {
        return Err(Stop::Refused);
    }
    store.put(other, 0, 7);
    if !store.has_reference(one) {
        return Err(Stop::Refused);
    }
    store.put_ref(one, 0, other);
    roots.set_pending(one);
    if !is_closed(&store, &roots) {
        return Err(Stop::Refused);
    }
    store.collect_all(&mut roots)?;
    write!(told, "{} {} ", holds(&store, third), roots.pending() == one)?;
    if !store.has_reference(one) {
        return Err(Stop::Refused);
    }
    let back = store.get_ref(one, 0);
    if !store.has_number(back) {
        return Err(Stop::Refused);
    }
    Ok(write!(told, "{}", store.get(back, 0))?)
}

/// Runs the trial of stores behind an object that nothing refers to. Tells its answer, and whether that object is held.
pub(crate) fn tell_linked(alloc: Global, told: &mut String) -> Result<(), Stop> {
    let mut store = CellStore::new();
    let mut roots = no_roots(alloc)?;
    if !is_closed(&store, &roots) {
        return Err(Stop::Refused);
    }
    let mut request = Request::new();
    request.add(0, 4);
    store.make_room(&request, &mut roots)?;
    let alone = store.place(0, 1, 1);
    if !is_closed(&store, &roots) {
        return Err(Stop::Refused);
    }
    let serial = linked(&mut store, &mut roots, &mut request)?;
    Ok(write!(told, "{serial} {}", holds(&store, alone))?)
}
