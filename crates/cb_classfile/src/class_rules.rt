// What is asked of a class beyond its tables (JVMS §4.1).
ghost use Rattle.std.specs.Prelude.{◌≡◌, ◌↔◌, ◌<◌, IsTrue, IfOk, IfSome, Some};
ghost use Rattle.std.specs.List.{AllByRecursion};
ghost use Rattle.cb_classfile.specs.Class.{FieldsDiffer, HasClasses, IsClass, IsInterface, KeepsRulesAlone, MethodsDiffer, object};
ghost use Rattle.cb_classfile.specs.Needed.{CallsClasses};
ghost use Rattle.cb_classfile.specs.Flags.{acc_interface, acc_static, HasFlag};
ghost use Rattle.cb_classfile.specs.Pool.{class_at};

use crate::ascii::is_spelled;
use crate::constants::Constants;
use crate::differ::do_differ;
use crate::needed::call_classes;
use crate::text_numbers::{do_differ_by, numbers_of_texts};
use crate::{ClassFile, ClassFlags, Field, FieldFlags, Method};
use bitflags::Flags;
use std::alloc::{AllocError, Global};

/// The first version in which a method of an interface may be called directly (JVMS §4.9.1).
const DIRECT_INTERFACE_CALLS: u16 = 52;

/// How many fields or methods are compared in pairs: for so few this takes less time than to number the pool's texts.
const MOST_IN_PAIRS: usize = 256;

/// Whether a class keeps the rules on its names, flags, members and calls beyond its tables (JVMS §4.1, §4.5, §4.6,
/// §4.9.1). Takes no memory, and time in the number of instructions, in that of pairs of fields and in that of pairs of
/// methods, for each of which two names and two descriptors may be compared.
pub fn is_class(constants: &Constants<'_>, class: &ClassFile) -> bool
    requires { class.now.pool ≡ constants.now }
    ensures { IsTrue result ↔ IsClass class.now }
{
    keeps_rules_alone(constants, class)
        && fields_differ(constants, class)
        && methods_differ(constants, class)
}

/// Whether no two fields have the same name and the same descriptor (JVMS §4.5).
fn fields_differ(constants: &Constants<'_>, class: &ClassFile) -> bool
    requires { class.now.pool ≡ constants.now }
    ensures { IsTrue result ↔ FieldsDiffer class.now }
{
    do_differ(constants, class.fields.as_slice())
}

/// Whether no two methods have the same name and the same descriptor (JVMS §4.6).
fn methods_differ(constants: &Constants<'_>, class: &ClassFile) -> bool
    requires { class.now.pool ≡ constants.now }
    ensures { IsTrue result ↔ MethodsDiffer class.now }
{
    do_differ(constants, class.methods.as_slice())
}

/// The same, in time linear in the class but for a logarithm: where there are many fields or methods, the texts of the
/// pool are numbered once, and compared by their numbers. `AllocError` where no memory was to be had for that.
pub fn is_class_by_numbers(
    alloc: Global,
    constants: &Constants<'_>,
    class: &ClassFile,
) -> Result<bool, AllocError>
    requires { class.now.pool ≡ constants.now }
    ensures { IfOk result (λ is. IsTrue is ↔ IsClass class.now) }
{
    if class.fields.len() <= MOST_IN_PAIRS && class.methods.len() <= MOST_IN_PAIRS {
        return Ok(is_class(constants, class));
    }
    Ok(keeps_rules_alone(constants, class) && members_differ_by_numbers(alloc, constants, class)?)
}

/// Whether no two fields and no two methods have the same name and the same descriptor.
fn members_differ_by_numbers(
    alloc: Global,
    constants: &Constants<'_>,
    class: &ClassFile,
) -> Result<bool, AllocError>
    requires { class.now.pool ≡ constants.now }
    ensures { IfOk result (λ differ. IsTrue differ ↔ (FieldsDiffer class.now × MethodsDiffer class.now)) }
{
    let numbers = numbers_of_texts(alloc, constants)?;
    let fields = do_differ_by(alloc, &numbers, class.fields.as_slice())?;
    let methods = do_differ_by(alloc, &numbers, class.methods.as_slice())?;
    Ok(fields && methods)
}

/// Whether a class keeps the rules that don't compare its members.
fn keeps_rules_alone(constants: &Constants<'_>, class: &ClassFile) -> bool
    requires { class.now.pool ≡ constants.now }
    ensures { IsTrue result ↔ KeepsRulesAlone class.now }
{
    has_classes(constants, class)
        && is_interface_where_flagged(constants, class)
        && calls_classes_where_asked(constants, class)
}

/// Whether its own name is one, and its superclass as it should be.
fn has_classes(constants: &Constants<'_>, class: &ClassFile) -> bool
    requires { class.now.pool ≡ constants.now }
    ensures { IsTrue result ↔ HasClasses class.now }
{
    let is_root = class.super_class == 0;
    constants.is_class(class.this_class)
        && is_root == is_object(constants, class.this_class)
        && (is_root || constants.is_class(class.super_class))
}

/// Whether the index names `java/lang/Object`.
fn is_object(constants: &Constants<'_>, index: u16) -> bool
    ensures { IsTrue result ↔ (class_at constants.now index ≡ Some object) }
{
    match constants.class(index) {
        Some(name) => is_spelled(name, b"java/lang/Object"),
        None => false,
    }
}

/// Whether an interface is abstract, its superclass is Object and its fields are static (JVMS §4.1, §4.5).
fn is_interface_where_flagged(constants: &Constants<'_>, class: &ClassFile) -> bool
    requires { class.now.pool ≡ constants.now }
    ensures { IsTrue result ↔ (HasFlag class.now.flags.0 acc_interface → IsInterface class.now) }
{
    !class.flags.contains(ClassFlags::INTERFACE)
        || class.flags.contains(ClassFlags::ABSTRACT)
            && is_object(constants, class.super_class)
            && are_static(class.fields.as_slice())
}

/// Whether each field is static.
fn are_static(fields: &[Field]) -> bool
    ensures { IsTrue result ↔ AllByRecursion (λ field. HasFlag field.flags.0 acc_static) fields.now }
{
    fields
        .iter()
        .all(|field| field.flags.contains(FieldFlags::STATIC))
}

/// Whether, up to version 51, `invokespecial` and `invokestatic` name methods of classes alone (JVMS §4.9.1).
fn calls_classes_where_asked(constants: &Constants<'_>, class: &ClassFile) -> bool
    requires { class.now.pool ≡ constants.now }
    ensures { IsTrue result ↔ (class.now.major < 52
        → AllByRecursion (λ method. IfSome method.body (CallsClasses class.now.pool)) class.now.methods) }
{
    class.major >= DIRECT_INTERFACE_CALLS
        || methods_call_classes(constants, class.methods.as_slice())
}

/// Whether the methods do.
fn methods_call_classes(constants: &Constants<'_>, methods: &[Method]) -> bool
    ensures { IsTrue result ↔ AllByRecursion (λ method. IfSome method.body (CallsClasses constants.now)) methods.now }
{
    methods
        .iter()
        .all(|method| method_calls_classes(constants, method))
}

/// Whether a method does.
fn method_calls_classes(constants: &Constants<'_>, method: &Method) -> bool
    ensures { IsTrue result ↔ IfSome method.now.body (CallsClasses constants.now) }
{
    match &method.body {
        Some(body) => call_classes(constants, body.code.as_slice()),
        None => true,
    }
}
