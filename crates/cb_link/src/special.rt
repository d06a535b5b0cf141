// Which method an invokespecial runs.
ghost use Rattle.std.specs.Prelude.{◌≡◌, ◌<◌, ◌&&◌, not, length, option_map, slice_get, IfOk, IfSome, Some};
ghost use Rattle.cb_classfile.specs.Pool.{text_at};
ghost use Rattle.cb_hierarchy.specs.Classes.{superclass};
ghost use Rattle.cb_link.specs.Inner.{names_of_member};
ghost use Rattle.cb_link.specs.InnerPlaces.{class_of_member};
ghost use Rattle.cb_link.specs.Named.{IsThere};
ghost use Rattle.cb_link.specs.Numbers.{hierarchy, methods_of, or_none};
ghost use Rattle.cb_link.specs.Special.{among_interfaces, as_resolved, class_declaring, declared_above, from_class, from_superclass, is_constructor, is_proper, special, special_named};

use crate::Named;
use crate::base::Base;
use crate::class_order::is_above;
use crate::descriptors::text_or_none;
use crate::lacked::is_init;
use crate::resolver::Resolver;
use cb_hierarchy::{Selected, as_selected, selected_among, selected_from};
use cb_plain::OutOfMemory;
use cb_text::Member;
use std::alloc::Global;

/// The number of the class whose member a constant names, if it names one and there is that class.
pub(crate) fn class_of_member(resolver: &Resolver, member: Option<Member<'_>>) -> Option<u32>
    ensures found { result ≡ class_of_member resolver.now
        (option_map names_of_member member.entry) }
    ensures within { IfSome result (λ number. number < length resolver.now) }
{
    match member {
        Some(member) => resolver.class_number(member.class),
        None => None,
    }
}

/// What an `invokespecial` of a class runs whose constant is this, and names a member of the class of this number (JVMS §6.5
/// invokespecial): `Abstract` where the constant names no method. `OutOfMemory` where no memory was to be had. Takes expected
/// time in what is above the two classes.
pub(crate) fn special_named(
    alloc: Global,
    base: &Base,
    class: u32,
    holder: Option<u32>,
    named: Named,
) -> Result<Selected, OutOfMemory>
    requires class { class < length base.now.classes }
    requires holder { IfSome holder (λ number. number < length base.now.classes) }
    requires there { IsThere base.now named }
    ensures { IfOk result (λ selected. selected ≡ special_named base.now
        (Some class) holder named) }
{
    match named {
        Named::Method(method) => special(alloc, base, method, class, holder),
        _ => Ok(Selected::Abstract),
    }
}

/// What it runs where this method was resolved.
fn special(
    alloc: Global,
    base: &Base,
    method: u32,
    class: u32,
    holder: Option<u32>,
) -> Result<Selected, OutOfMemory>
    requires method { method < length base.now.methods }
    requires class { class < length base.now.classes }
    requires holder { IfSome holder (λ number. number < length base.now.classes) }
    ensures { IfOk result (λ selected. selected ≡ special base.now method (Some class) holder) }
{
    if selects_above(base, method, class, holder) {
        from_superclass(alloc, &base.resolver, method, class)
    } else {
        as_resolved(alloc, base, method, holder)
    }
}

/// Whether it selects from the superclass upwards: a method that is no constructor, of a proper superclass.
fn selects_above(base: &Base, method: u32, class: u32, holder: Option<u32>) -> bool
    requires method { method < length base.now.methods }
    requires class { class < length base.now.classes }
    ensures { result ≡ (not
        (is_constructor base.now.classes method) && is_proper base.now.classes class holder) }
{
    !is_constructor(base, method) && is_proper(&base.resolver, class, holder)
}

/// Whether a method is a constructor.
fn is_constructor(base: &Base, method: u32) -> bool
    requires { method < length base.now.methods }
    ensures { result ≡ is_constructor base.now.classes method }
{
    is_init(base.method_name(method))
}

/// Whether a class is there and is a proper superclass of another one.
fn is_proper(resolver: &Resolver, class: u32, holder: Option<u32>) -> bool
    requires { class < length resolver.now }
    ensures { result ≡ is_proper resolver.now class holder }
{
    match holder {
        Some(holder) => is_above(resolver.hierarchy(), class, holder),
        None => false,
    }
}

/// What is selected for a method from the superclass of a class upwards.
fn from_superclass(
    alloc: Global,
    resolver: &Resolver,
    method: u32,
    class: u32,
) -> Result<Selected, OutOfMemory>
    requires { class < length resolver.now }
    ensures { IfOk result (λ selected. selected ≡ from_superclass resolver.now method (superclass
        (hierarchy resolver.now) class)) }
{
    match resolver.hierarchy().class(class).superclass {
        Some(above) => from_class(alloc, resolver, above, method),
        None => Ok(as_selected(resolver.methods(), method)),
    }
}

/// What is selected for a method from a class upwards.
fn from_class(
    alloc: Global,
    resolver: &Resolver,
    class: u32,
    method: u32,
) -> Result<Selected, OutOfMemory>
    requires { class < length resolver.now }
    ensures { IfOk result (λ selected. selected ≡ from_class resolver.now class method) }
{
    match resolver.method(method) {
        Some(ranked) => selected_from(
            alloc,
            resolver.hierarchy(),
            resolver.methods(),
            class,
            ranked.declared.signature,
        ),
        None => Ok(Selected::Abstract),
    }
}

/// What the method that was resolved comes to, where a member of this class was named.
fn as_resolved(
    alloc: Global,
    base: &Base,
    method: u32,
    holder: Option<u32>,
) -> Result<Selected, OutOfMemory>
    requires method { method < length base.now.methods }
    requires holder { IfSome holder (λ number. number < length base.now.classes) }
    ensures { IfOk result (λ selected. selected ≡ as_resolved base.now method holder) }
{
    let Some(holder) = holder else {
        return Ok(as_selected(base.resolver.methods(), method));
    };
    if is_declared_above(base, holder, method) {
        Ok(as_selected(base.resolver.methods(), method))
    } else {
        among_interfaces(alloc, &base.resolver, holder, method)
    }
}

/// Whether a class or a superclass declares a method.
fn is_declared_above(base: &Base, class: u32, method: u32) -> bool
    requires class { class < length base.now.classes }
    requires method { method < length base.now.methods }
    ensures { result ≡ declared_above base.now.classes class (class_declaring base.now method) }
{
    let declaring = base.linked(method as usize).class;
    is_upwards(&base.resolver, class, declaring)
}

/// Whether a class is another one or a superclass of it.
fn is_upwards(resolver: &Resolver, class: u32, wanted: u32) -> bool
    requires { class < length resolver.now }
    ensures { result ≡ declared_above resolver.now class (Some wanted) }
{
    let upwards = resolver.hierarchy().upwards(class);
    upwards.iter().any(|number| *number == wanted)
}

/// What the superinterfaces of a class have for a method.
fn among_interfaces(
    alloc: Global,
    resolver: &Resolver,
    class: u32,
    method: u32,
) -> Result<Selected, OutOfMemory>
    requires { class < length resolver.now }
    ensures { IfOk result (λ selected. selected ≡ among_interfaces resolver.now class method) }
{
    match resolver.method(method) {
        Some(ranked) => selected_among(
            alloc,
            resolver.hierarchy(),
            resolver.methods(),
            class,
            ranked.declared.signature,
        ),
        None => Ok(Selected::Abstract),
    }
}

impl Base {
    /// The name of a method.
    fn method_name(&self, method: u32) -> &[u16]
        requires { method < length self.now.methods }
        ensures { option_map (λ numbered. or_none (text_at numbered.pool numbered.member.name))
            (slice_get (methods_of self.now.classes) method) ≡ Some result.now }
    {
        let linked = self.linked(method as usize);
        let class = self.class(linked.class);
        let record = class.methods.get(linked.place as usize);
        text_or_none(&class.pool, record.name)
    }
}
