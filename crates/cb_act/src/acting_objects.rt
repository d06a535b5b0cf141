// What instructions on objects do, as whole steps.
ghost use Rattle.cb_heap.specs.Storage.{view_in};
ghost use Rattle.std.specs.Prelude.{◌≡◌, ◌<◌, ◌^◌, ℕ, is_some, length, option_map, slice_get, true, IsTrue, OnErr, Some};
ghost use Rattle.cb_frames.specs.Tops.{runs_method, top_stack};
ghost use Rattle.cb_heap.specs.Follows.{Follows};
ghost use Rattle.cb_heap.specs.Kept.{contents_at, is_held};
ghost use Rattle.cb_heap.specs.Reading.{View, seen};
ghost use Rattle.cb_kinds.specs.declared.basic.Basic.{Basic as AnyBasic};
ghost use Rattle.cb_kinds.specs.declared.basic.Basic.TheVariants as basics;
ghost use Rattle.cb_link.specs.Decoding.{basic_named};
ghost use Rattle.cb_link.specs.Named.{IsThere};
ghost use Rattle.cb_link.specs.Slots.{field_basic};
ghost use Rattle.cb_link.specs.declared.named.Named.TheVariants as meanings;
ghost use Rattle.cb_plain.specs.State.{Object};
ghost use Rattle.cb_plain.specs.Updates.{object_in};
ghost use Rattle.cb_shapes.specs.declared.sort.Sort.TheVariants as sorts;
ghost use Rattle.cb_act.specs.Effects.{has_sort};
ghost use Rattle.cb_act.specs.Acting.{Does, basic_on, deed_by, default_of, fits_on, going_on, loaded, of_left, of_pended, on_field, on_kind, stored};
ghost use Rattle.cb_act.specs.Classes.{HasKind, behind_cast, behind_instance, behind_throw};
ghost use Rattle.cb_act.specs.Objects.{SuitsWord, SuitsWords, behind_get_field, behind_length, behind_put_field};
ghost use Rattle.cb_act.specs.Objects.{behind_store_reference, left_by, object_on};
ghost use Rattle.cb_act.specs.Suited.{SuitsArray};

use crate::Need;
use crate::arrays::{array_length, load_element, store_element, store_reference};
use crate::classes::{cast, fits, instance, throw_object};
use crate::fields::{get_field, put_field};
use crate::named::basic_of;
use crate::operands::reference_at;
use cb_frames::Roots;
use cb_heap::Store;
use cb_kinds::Basic;
use cb_link::{Decoded, Named, Program};
use cb_shapes::Sort;

/// `getfield`
#[inline(always)]
pub(crate) fn gets_field<S: Store>(
    program: &Program,
    store: &S,
    roots: &mut Roots,
    decoded: &Decoded,
) -> Result<(), Need>
    requires told { decoded.now.basic ≡ basic_named program.now decoded.now.named }
    requires there { is_some (on_field program.now (λ slot basic. going_on decoded.now
        (behind_get_field slot basic (view_in (S.storage store.now) roots.old.roots))) decoded.now.named) ≡ true }
    requires named { IsThere program.now decoded.now.named }
    requires runs { runs_method roots.old.roots ≡ true }
    requires suits { (class slot : ℕ) (basic : AnyBasic) → decoded.now.named
        ≡ meanings.Field class slot → field_basic program.now class slot ≡ Some basic
        → SuitsWord basic 0 slot (view_in (S.storage store.now) roots.old.roots) }
    ensures deed { on_field program.now (λ slot basic. going_on decoded.now
        (behind_get_field slot basic (view_in (S.storage store.now) roots.old.roots))) decoded.now.named
        ≡ Some (deed_by result (view_in (S.storage store.now) roots.new.roots)) }
    ensures same { OnErr result (roots.new ≡ roots.old) }
    ensures limit { roots.new.limit ≡ roots.old.limit }
{
    let Named::Field { slot, .. } = decoded.named else {
        unreachable!()
    };
    let Some(next) = decoded.next else {
        unreachable!()
    };
    let left = get_field(store, roots, slot, basic_of(program, decoded));
    goes_on(store, roots, next, left)
}

/// `putfield`
#[inline(always)]
pub(crate) fn puts_field<S: Store>(
    program: &Program,
    store: &mut S,
    roots: &mut Roots,
    decoded: &Decoded,
) -> Result<(), Need>
    requires told { decoded.now.basic ≡ basic_named program.now decoded.now.named }
    requires there { is_some (on_field program.now (λ slot basic. going_on decoded.now
        (behind_put_field slot basic (view_in (S.storage store.old) roots.old.roots))) decoded.now.named) ≡ true }
    requires named { IsThere program.now decoded.now.named }
    requires runs { runs_method roots.old.roots ≡ true }
    requires suits { (class slot : ℕ) (basic : AnyBasic) → decoded.now.named
        ≡ meanings.Field class slot → field_basic program.now class slot ≡ Some basic
        → SuitsWord basic 1 slot (view_in (S.storage store.old) roots.old.roots) }
    requires held { IsTrue (is_held (S.storage store.old).kept (object_on (view_in (S.storage store.old) roots.old.roots) 0)) }
    requires follows { (after : View) → on_field program.now (λ slot basic. going_on decoded.now (behind_put_field slot basic (view_in (S.storage store.old) roots.old.roots))) decoded.now.named ≡ Some (Does after) → Follows (S.storage store.old).settings.allows after.objects }
    ensures deed { on_field program.now (λ slot basic. going_on decoded.now
        (behind_put_field slot basic (view_in (S.storage store.old) roots.old.roots))) decoded.now.named
        ≡ Some (deed_by result (view_in (S.storage store.new) roots.new.roots)) }
    ensures same { OnErr result (roots.new ≡ roots.old) }
    ensures held { OnErr result ((S.storage store.new).kept ≡ (S.storage store.old).kept) }
    ensures limit { roots.new.limit ≡ roots.old.limit }
    ensures places { (S.storage store.new).index ≡ (S.storage store.old).index }
    ensures facts { (S.storage store.new).facts ≡ (S.storage store.old).facts }
    ensures granted { (S.storage store.new).granted ≡ (S.storage store.old).granted }
    ensures faults { (S.storage store.new).faults ≡ (S.storage store.old).faults }
    ensures settings { (S.storage store.new).settings ≡ (S.storage store.old).settings }
{
    let Named::Field { slot, .. } = decoded.named else {
        unreachable!()
    };
    let Some(next) = decoded.next else {
        unreachable!()
    };
    let left = put_field(store, roots, slot, basic_of(program, decoded));
    goes_on(store, roots, next, left)
}

/// `arraylength`
#[inline(always)]
pub(crate) fn measures<S: Store>(
    store: &S,
    roots: &mut Roots,
    decoded: &Decoded,
) -> Result<(), Need>
    requires there { is_some (going_on decoded.now (behind_length (view_in (S.storage store.now) roots.old.roots))) ≡ true }
    requires runs { runs_method roots.old.roots ≡ true }
    requires few { length (contents_at (S.storage store.now).kept (object_on (view_in (S.storage store.now) roots.old.roots) 0)) < 2 ^ 31 }
    ensures deed { going_on decoded.now (behind_length (view_in (S.storage store.now) roots.old.roots)) ≡ Some (deed_by result (view_in (S.storage store.now) roots.new.roots)) }
    ensures same { OnErr result (roots.new ≡ roots.old) }
    ensures limit { roots.new.limit ≡ roots.old.limit }
{
    let Some(next) = decoded.next else {
        unreachable!()
    };
    let left = array_length(store, roots);
    goes_on(store, roots, next, left)
}

/// `iaload` to `saload`
#[inline(always)]
pub(crate) fn loads<S: Store>(
    program: &Program,
    store: &S,
    roots: &mut Roots,
    decoded: &Decoded,
    sort: Sort,
) -> Result<(), Need>
    requires there { is_some (loaded program.now decoded.now (view_in (S.storage store.now) roots.old.roots) sort) ≡ true }
    requires runs { runs_method roots.old.roots ≡ true }
    requires suits { SuitsArray program.now sort 1 (view_in (S.storage store.now) roots.old.roots) }
    ensures deed { loaded program.now decoded.now (view_in (S.storage store.now) roots.old.roots) sort ≡ Some (deed_by result (view_in (S.storage store.now) roots.new.roots)) }
    ensures same { OnErr result (roots.new ≡ roots.old) }
    ensures limit { roots.new.limit ≡ roots.old.limit }
{
    let Some(next) = decoded.next else {
        unreachable!()
    };
    let _ = program;
    let left = load_element(store, roots, default_of(sort));
    goes_on(store, roots, next, left)
}

/// `iastore` to `sastore`, but for `aastore`
#[inline(always)]
pub(crate) fn stores<S: Store>(
    program: &Program,
    store: &mut S,
    roots: &mut Roots,
    decoded: &Decoded,
    sort: Sort,
) -> Result<(), Need>
    requires there { is_some (stored program.now decoded.now (view_in (S.storage store.old) roots.old.roots) sort) ≡ true }
    requires runs { runs_method roots.old.roots ≡ true }
    requires kinds { (serial : ℕ) (object : Object) → object_in (S.storage store.old).kept serial
        ≡ Some object → object.kind < length program.now.kinds }
    requires held { IsTrue (is_held (S.storage store.old).kept (object_on (view_in (S.storage store.old) roots.old.roots) 2)) }
    requires suits { SuitsArray program.now sort 2 (view_in (S.storage store.old) roots.old.roots) }
    requires value { IsTrue (is_held (S.storage store.old).kept (object_on (view_in (S.storage store.old) roots.old.roots) 0)) }
    requires follows { (after : View) → stored program.now decoded.now (view_in (S.storage store.old) roots.old.roots) sort ≡ Some (Does after) → Follows (S.storage store.old).settings.allows after.objects }
    ensures deed { stored program.now decoded.now (view_in (S.storage store.old) roots.old.roots) sort ≡ Some (deed_by result (view_in (S.storage store.new) roots.new.roots)) }
    ensures same { OnErr result (roots.new ≡ roots.old) }
    ensures held { OnErr result ((S.storage store.new).kept ≡ (S.storage store.old).kept) }
    ensures limit { roots.new.limit ≡ roots.old.limit }
    ensures places { (S.storage store.new).index ≡ (S.storage store.old).index }
    ensures facts { (S.storage store.new).facts ≡ (S.storage store.old).facts }
    ensures granted { (S.storage store.new).granted ≡ (S.storage store.old).granted }
    ensures faults { (S.storage store.new).faults ≡ (S.storage store.old).faults }
    ensures settings { (S.storage store.new).settings ≡ (S.storage store.old).settings }
{
    let Some(next) = decoded.next else {
        unreachable!()
    };
    let basic = element_on(program, store, roots, 2, sort);
    let left = store_element(store, roots, basic);
    goes_on(store, roots, next, left)
}

/// `aastore`
#[inline(always)]
pub(crate) fn stores_reference<S: Store>(
    program: &Program,
    store: &mut S,
    roots: &mut Roots,
    decoded: &Decoded,
) -> Result<(), Need>
    requires there { is_some (going_on decoded.now (behind_store_reference (fits_on program.now
        (view_in (S.storage store.old) roots.old.roots)) (view_in (S.storage store.old) roots.old.roots))) ≡ true }
    requires runs { runs_method roots.old.roots ≡ true }
    requires kinds { (serial : ℕ) (object : Object) → object_in (S.storage store.old).kept serial
        ≡ Some object → object.kind < length program.now.kinds }
    requires array { IsTrue (is_held (S.storage store.old).kept (object_on (view_in (S.storage store.old) roots.old.roots) 2)) }
    requires value { IsTrue (is_held (S.storage store.old).kept (object_on (view_in (S.storage store.old) roots.old.roots) 0)) }
    requires suits { SuitsWords (basics.Reference 0) 2 (view_in (S.storage store.old) roots.old.roots) }
    requires follows { (after : View) → going_on decoded.now (behind_store_reference (fits_on program.now (view_in (S.storage store.old) roots.old.roots)) (view_in (S.storage store.old) roots.old.roots)) ≡ Some (Does after) → Follows (S.storage store.old).settings.allows after.objects }
    ensures deed { going_on decoded.now (behind_store_reference (fits_on program.now (view_in (S.storage store.old) roots.old.roots)) (view_in (S.storage store.old) roots.old.roots)) ≡ Some (deed_by result (view_in (S.storage store.new) roots.new.roots)) }
    ensures same { OnErr result (roots.new ≡ roots.old) }
    ensures held { OnErr result ((S.storage store.new).kept ≡ (S.storage store.old).kept) }
    ensures limit { roots.new.limit ≡ roots.old.limit }
    ensures places { (S.storage store.new).index ≡ (S.storage store.old).index }
    ensures facts { (S.storage store.new).facts ≡ (S.storage store.old).facts }
    ensures granted { (S.storage store.new).granted ≡ (S.storage store.old).granted }
    ensures faults { (S.storage store.new).faults ≡ (S.storage store.old).faults }
    ensures settings { (S.storage store.new).settings ≡ (S.storage store.old).settings }
{
    let Some(next) = decoded.next else {
        unreachable!()
    };
    let fit = fits_array(program, store, roots);
    let left = store_reference(store, roots, fit);
    goes_on(store, roots, next, left)
}

/// `checkcast`
#[inline(always)]
pub(crate) fn casts<S: Store>(
    program: &Program,
    store: &S,
    roots: &mut Roots,
    decoded: &Decoded,
) -> Result<(), Need>
    requires there { is_some (on_kind (λ kind. going_on decoded.now (behind_cast program.now kind
        (view_in (S.storage store.now) roots.old.roots))) decoded.now.named) ≡ true }
    requires named { IsThere program.now decoded.now.named }
    requires runs { runs_method roots.old.roots ≡ true }
    requires own { HasKind program.now 0 (view_in (S.storage store.now) roots.old.roots) }
    ensures deed { on_kind (λ kind. going_on decoded.now (behind_cast program.now kind (view_in (S.storage store.now) roots.old.roots))) decoded.now.named
        ≡ Some (deed_by result (view_in (S.storage store.now) roots.new.roots)) }
    ensures same { OnErr result (roots.new ≡ roots.old) }
    ensures limit { roots.new.limit ≡ roots.old.limit }
{
    let Named::Kind(kind) = decoded.named else {
        unreachable!()
    };
    let Some(next) = decoded.next else {
        unreachable!()
    };
    let left = cast(program, store, roots, kind);
    goes_on(store, roots, next, left)
}

/// `instanceof`
#[inline(always)]
pub(crate) fn asks_kind<S: Store>(
    program: &Program,
    store: &S,
    roots: &mut Roots,
    decoded: &Decoded,
) -> Result<(), Need>
    requires there { is_some (on_kind (λ kind. going_on decoded.now
        (behind_instance program.now kind (view_in (S.storage store.now) roots.old.roots))) decoded.now.named) ≡ true }
    requires named { IsThere program.now decoded.now.named }
    requires runs { runs_method roots.old.roots ≡ true }
    requires own { HasKind program.now 0 (view_in (S.storage store.now) roots.old.roots) }
    ensures deed { on_kind (λ kind. going_on decoded.now (behind_instance program.now kind (view_in (S.storage store.now) roots.old.roots))) decoded.now.named
        ≡ Some (deed_by result (view_in (S.storage store.now) roots.new.roots)) }
    ensures same { OnErr result (roots.new ≡ roots.old) }
    ensures limit { roots.new.limit ≡ roots.old.limit }
{
    let Named::Kind(kind) = decoded.named else {
        unreachable!()
    };
    let Some(next) = decoded.next else {
        unreachable!()
    };
    instance(program, store, roots, kind);
    goes_on(store, roots, next, Ok(()))
}

/// `athrow`
#[inline(always)]
pub(crate) fn throws_object<S: Store>(store: &S, roots: &mut Roots) -> Result<(), Need>
    requires there { is_some (behind_throw (view_in (S.storage store.now) roots.old.roots)) ≡ true }
    ensures deed { option_map of_pended (behind_throw (view_in (S.storage store.now) roots.old.roots)) ≡ Some (deed_by result (view_in (S.storage store.now) roots.new.roots)) }
    ensures same { OnErr result (roots.new ≡ roots.old) }
    ensures limit { roots.new.limit ≡ roots.old.limit }
{
    match throw_object(store, roots) {
        Ok(()) => Ok(()),
        Err(site) => Err(Need::Throws(site)),
    }
}

/// After an instruction that goes on at the next place.
#[inline(always)]
pub(crate) fn goes_on<S: Store>(
    store: &S,
    roots: &mut Roots,
    next: u32,
    left: Result<(), u32>,
) -> Result<(), Need>
    requires runs { runs_method roots.old.roots ≡ true }
    ensures deed { deed_by result (view_in (S.storage store.now) roots.new.roots)
        ≡ of_left next (left_by left (view_in (S.storage store.now) roots.old.roots)) }
    ensures same { OnErr result (roots.new ≡ roots.old) }
    ensures limit { roots.new.limit ≡ roots.old.limit }
{
    match left {
        Ok(()) => {
            roots.set_place(next);
            Ok(())
        }
        Err(site) => Err(Need::Throws(site)),
    }
}

/// What the elements of the array at a depth of the stack are: where it is null, anything of the sort that is asked for.
#[inline(always)]
fn element_on<S: Store>(
    program: &Program,
    store: &S,
    roots: &Roots,
    depth: u32,
    sort: Sort,
) -> Basic
    requires there { has_sort sorts.Reference (slice_get (top_stack roots.now.roots) depth) ≡ true }
    requires kinds { (serial : ℕ) (object : Object) → object_in (S.storage store.now).kept serial
        ≡ Some object → object.kind < length program.now.kinds }
    requires held { IsTrue (is_held (S.storage store.now).kept (object_on (view_in (S.storage store.now) roots.now.roots) depth)) }
    ensures { result ≡ basic_on program.now sort (view_in (S.storage store.now) roots.now.roots) depth }
{
    let at = reference_at(roots, depth);
    if at == 0 {
        return default_of(sort);
    }
    match program.element(store.kind(at)) {
        Some(basic) => basic,
        None => default_of(sort),
    }
}

/// A type whose values are of a sort.
#[inline(always)]
fn default_of(sort: Sort) -> Basic
    ensures { result ≡ default_of sort }
{
    match sort {
        Sort::Int => Basic::Int,
        Sort::Long => Basic::Long,
        Sort::Reference => Basic::Reference(0),
    }
}

/// Whether the reference on top of the stack fits the array below its index.
#[inline(always)]
fn fits_array<S: Store>(program: &Program, store: &S, roots: &Roots) -> bool
    requires value { has_sort sorts.Reference (slice_get (top_stack roots.now.roots) 0) ≡ true }
    requires array { has_sort sorts.Reference (slice_get (top_stack roots.now.roots) 2) ≡ true }
    requires kinds { (serial : ℕ) (object : Object) → object_in (S.storage store.now).kept serial
        ≡ Some object → object.kind < length program.now.kinds }
    requires array_held { IsTrue (is_held (S.storage store.now).kept (object_on (view_in (S.storage store.now) roots.now.roots) 2)) }
    requires value_held { IsTrue (is_held (S.storage store.now).kept (object_on (view_in (S.storage store.now) roots.now.roots) 0)) }
    ensures { result ≡ fits_on program.now (view_in (S.storage store.now) roots.now.roots) }
{
    let array = reference_at(roots, 2);
    array != 0 && fits(program, store, array, reference_at(roots, 0))
}
