// What `invokeinterface` does, as a whole step.
ghost use Rattle.cb_heap.specs.Storage.{view_in};
ghost use Rattle.std.specs.Prelude.{◌≡◌, ◌<◌, ℕ, is_some, length, option_and_then, option_map, true, IfSome, IsTrue, OnErr, Some};
ghost use Rattle.cb_heap.specs.Kept.{is_held};
ghost use Rattle.cb_heap.specs.Reading.{seen};
ghost use Rattle.cb_link.specs.Calls.{IsOneOf};
ghost use Rattle.cb_link.specs.Named.{IsThere};
ghost use Rattle.cb_machine.specs.Calling.{implementing, is_private_method};
ghost use Rattle.cb_plain.specs.State.{Object};
ghost use Rattle.cb_plain.specs.Updates.{object_in};
ghost use Rattle.cb_text.specs.Naming.{class_at, member_at};
ghost use Rattle.cb_act.specs.Acting.{ArgumentsFit, HasFewParameters, ListsMethods, MarksNatives, deed_by, holder_kind, implementing_deed, interface_called, interface_deed};
ghost use Rattle.cb_act.specs.Objects.{object_on};

use crate::Need;
use crate::acting_calls::calls;
use crate::operands::reference_at;
use crate::sites::{INCOMPATIBLE_CLASS_CHANGE, NULL_POINTER};
use bitflags::Flags;
use cb_classfile::MethodFlags;
use cb_frames::{Frame, Roots};
use cb_heap::Store;
use cb_hierarchy::Selected;
use cb_link::{Decoded, Named, Program};
use cb_text::{Constant, Pool};

/// `invokeinterface` (JVMS §6.5), of the method that the constant at an index names.
#[inline(always)]
pub(crate) fn invokes_interface<S: Store>(
    program: &Program,
    store: &S,
    roots: &mut Roots,
    decoded: &Decoded,
    index: u16,
) -> Result<(), Need>
    requires there { is_some (interface_called program.now roots.old.limit (view_in (S.storage store.now) roots.old.roots) index decoded.now.named) ≡ true }
    requires named { IsThere program.now decoded.now.named }
    requires listed { ListsMethods program.now }
    requires natives { MarksNatives program.now }
    requires parameters { HasFewParameters program.now }
    requires kinds { (serial : ℕ) (object : Object) → object_in (S.storage store.now).kept serial
        ≡ Some object → object.kind < length program.now.kinds }
    requires held { (depth : ℕ) → IsTrue (is_held (S.storage store.now).kept (object_on (view_in (S.storage store.now) roots.old.roots) depth)) }
    requires fit { ArgumentsFit program.now (view_in (S.storage store.now) roots.old.roots) (λ limit. interface_called program.now limit (view_in (S.storage store.now) roots.old.roots) index decoded.now.named) }
    ensures deed { interface_called program.now roots.old.limit (view_in (S.storage store.now) roots.old.roots) index decoded.now.named
        ≡ Some (deed_by result (view_in (S.storage store.now) roots.new.roots)) }
    ensures same { OnErr result (roots.new ≡ roots.old) }
    ensures limit { roots.new.limit ≡ roots.old.limit }
{
    let Some(Frame::Running { method: caller, .. }) = roots.top() else {
        return Ok(());
    };
    let Named::Method(method) = decoded.named else {
        return Ok(());
    };
    calls_interface(program, store, roots, caller, index, method)
}

/// The same of a method, in the one that runs: a private method isn't called so, whatever the object.
#[inline(always)]
fn calls_interface<S: Store>(
    program: &Program,
    store: &S,
    roots: &mut Roots,
    caller: u32,
    index: u16,
    method: u32,
) -> Result<(), Need>
    requires there { is_some (interface_deed program.now roots.old.limit (view_in (S.storage store.now) roots.old.roots) caller index method) ≡ true }
    requires method { method < length program.now.methods }
    requires listed { ListsMethods program.now }
    requires natives { MarksNatives program.now }
    requires parameters { HasFewParameters program.now }
    requires kinds { (serial : ℕ) (object : Object) → object_in (S.storage store.now).kept serial
        ≡ Some object → object.kind < length program.now.kinds }
    requires held { (depth : ℕ) → IsTrue (is_held (S.storage store.now).kept (object_on (view_in (S.storage store.now) roots.old.roots) depth)) }
    requires fit { ArgumentsFit program.now (view_in (S.storage store.now) roots.old.roots) (λ limit. interface_deed program.now limit (view_in (S.storage store.now) roots.old.roots) caller index method) }
    ensures deed { interface_deed program.now roots.old.limit (view_in (S.storage store.now) roots.old.roots) caller index method ≡ Some (deed_by result (view_in (S.storage store.now) roots.new.roots)) }
    ensures same { OnErr result (roots.new ≡ roots.old) }
    ensures limit { roots.new.limit ≡ roots.old.limit }
{
    if is_private(program, method) {
        Err(Need::Throws(INCOMPATIBLE_CLASS_CHANGE))
    } else {
        calls_implementing(program, store, roots, caller, index, method)
    }
}

/// The same of a method that isn't private: it is called where the object implements the interface.
#[inline(always)]
fn calls_implementing<S: Store>(
    program: &Program,
    store: &S,
    roots: &mut Roots,
    caller: u32,
    index: u16,
    method: u32,
) -> Result<(), Need>
    requires there { is_some (implementing_deed program.now roots.old.limit (view_in (S.storage store.now) roots.old.roots) caller index method) ≡ true }
    requires method { method < length program.now.methods }
    requires listed { ListsMethods program.now }
    requires natives { MarksNatives program.now }
    requires parameters { HasFewParameters program.now }
    requires kinds { (serial : ℕ) (object : Object) → object_in (S.storage store.now).kept serial
        ≡ Some object → object.kind < length program.now.kinds }
    requires held { (depth : ℕ) → IsTrue (is_held (S.storage store.now).kept (object_on (view_in (S.storage store.now) roots.old.roots) depth)) }
    requires fit { ArgumentsFit program.now (view_in (S.storage store.now) roots.old.roots) (λ limit. implementing_deed program.now limit (view_in (S.storage store.now) roots.old.roots) caller index method) }
    ensures deed { implementing_deed program.now roots.old.limit (view_in (S.storage store.now) roots.old.roots) caller index method ≡ Some (deed_by result (view_in (S.storage store.now) roots.new.roots)) }
    ensures same { OnErr result (roots.new ≡ roots.old) }
    ensures limit { roots.new.limit ≡ roots.old.limit }
{
    let count = program.parameter_count(method) as u32;
    let at = reference_at(roots, count);
    if at == 0 {
        return Err(Need::Throws(NULL_POINTER));
    }
    let interface = holder_kind(program, caller, index);
    let selected = implementing(program, method, interface, store.kind(at));
    calls(program, store, roots, count + 1, selected)
}

/// Whether a method is private.
fn is_private(program: &Program, method: u32) -> bool
    requires { method < length program.now.methods }
    ensures { result ≡ is_private_method program.now method }
{
    let flags = program.method(method).flags;
    !flags.contains(MethodFlags::PUBLIC)
        && !flags.contains(MethodFlags::PROTECTED)
        && flags.contains(MethodFlags::PRIVATE)
}

/// The method that is selected on an object of a kind, where it is an instance of the interface.
fn implementing(program: &Program, method: u32, interface: Option<u32>, kind: u32) -> Selected
    requires method { method < length program.now.methods }
    requires interface { IfSome interface (λ of. of < length program.now.kinds) }
    requires kind { kind < length program.now.kinds }
    ensures found { result ≡ implementing program.now method interface kind }
    ensures within { IsOneOf (length program.now.methods) result }
{
    let Some(interface) = interface else {
        return Selected::Several;
    };
    if program.instance(kind, interface) {
        program.select(kind, method)
    } else {
        Selected::Several
    }
}

/// The number of the kind of the class or interface whose member the constant at an index names, in the class of a method.
fn holder_kind(program: &Program, caller: u32, index: u16) -> Option<u32>
    requires { ListsMethods program.now }
    ensures found { result ≡ holder_kind program.now caller index }
    ensures within { IfSome result (λ kind. kind < length program.now.kinds) }
{
    if caller >= program.method_count() {
        return None;
    }
    let class = program.class_of(caller);
    let holder = holder_at(&program.class(class as usize).pool, index)?;
    program.kind_at(class, holder)
}

/// The index of the class or interface whose member the constant at an index names.
fn holder_at(pool: &Pool, index: u16) -> Option<u16>
    ensures { option_and_then (class_at pool.now) result
        ≡ option_map (λ member. member.class) (member_at pool.now index) }
{
    let _constants = pool.constants();
    match pool.get(index)? {
        Constant::Fieldref(holder, _)
        | Constant::Methodref(holder, _)
        | Constant::InterfaceMethodref(holder, _) => Some(*holder),
        _ => None,
    }
}
