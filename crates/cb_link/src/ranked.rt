// Classes and members as numbers.
ghost use Rattle.std.specs.Prelude.{◌≡◌, ◌++◌, ◌<◌, ◌^◌, length, map, IfOk, OnOk};
ghost use Rattle.std.specs.List.{enumerate_from, flat_map};
ghost use Rattle.cb_text.specs.Naming.{text_at};
ghost use Rattle.cb_hierarchy.specs.Classes.{listed};
ghost use Rattle.cb_kinds.specs.Basics.{kind_number};
ghost use Rattle.cb_kinds.specs.Texts.{own_number};
ghost use Rattle.cb_link.specs.Numbers.{has_flag, name_of, or_none, package_of, texts_in, visibility_of};
ghost use Rattle.cb_link.specs.InnerRanks.{fields_of_class, methods_of_class, number_at, package_name, rank, rank_field, rank_method, texts_of_fields, texts_of_methods};

use cb_classfile::{ClassFile, ClassFlags, Field, Method, MethodFlags};
use cb_hierarchy::{
    Class, Classes, Declared, Field as RankedField, Fields as RankedFields, Method as RankedMethod,
    Methods as RankedMethods, Visibility,
};
use cb_kinds::{PairNumbers, TextNumbers};
use cb_plain::{Numbers, OutOfMemory, number_of};
use cb_text::Pool;
use std::alloc::Global;

/// `/`, with which the parts of a name end.
const SLASH: u16 = b'/' as u16;

// The access flags (JVMS tables 4.1-A, 4.5-A and 4.6-A).
const PUBLIC: u16 = MethodFlags::PUBLIC.0;

const PRIVATE: u16 = MethodFlags::PRIVATE.0;

const PROTECTED: u16 = MethodFlags::PROTECTED.0;

const STATIC: u16 = MethodFlags::STATIC.0;

const FINAL: u16 = MethodFlags::FINAL.0;

const INTERFACE: u16 = ClassFlags::INTERFACE.0;

const ABSTRACT: u16 = MethodFlags::ABSTRACT.0;

/// Whether flags have one.
fn has(flags: u16, flag: u16) -> bool
    ensures { result ≡ has_flag flag flags }
{
    flags & flag == flag
}

/// From where a method of these flags may be seen.
fn visibility(flags: u16) -> Visibility
    ensures { result ≡ visibility_of flags }
{
    if has(flags, PUBLIC) {
        Visibility::Public
    } else if has(flags, PROTECTED) {
        Visibility::Protected
    } else if has(flags, PRIVATE) {
        Visibility::Private
    } else {
        Visibility::Package
    }
}

/// The name of a class.
pub(crate) fn name_of(class: &ClassFile) -> &[u16]
    ensures { result.now ≡ name_of class.now }
{
    class.pool.class(class.this_class).unwrap_or(&[])
}

/// The package of a name, up to its last slash.
fn package_of(name: &[u16]) -> &[u16]
    ensures { result.now ≡ package_of name.now }
{
    let mut end = 0;
    for (index, unit) in name.iter().enumerate() {
        if *unit == SLASH {
            end = index + 1;
        }
    }
    &name[..end]
}

/// The names of classes.
pub(crate) fn class_names(alloc: Global, classes: &[ClassFile]) -> Result<TextNumbers, OutOfMemory>
    ensures { IfOk result (λ names. names ≡ map name_of classes.now) }
{
    let mut names = TextNumbers::new(alloc);
    for class in classes {
        names.push(name_of(class))?;
    }
    Ok(names)
}

/// The packages of classes.
fn package_names(alloc: Global, classes: &[ClassFile]) -> Result<TextNumbers, OutOfMemory>
    ensures { IfOk result (λ names. names ≡ map package_name classes.now) }
{
    let mut names = TextNumbers::new(alloc);
    for class in classes {
        names.push(package_of(name_of(class)))?;
    }
    Ok(names)
}

/// The number of the class at an index.
fn number_at(names: &TextNumbers, pool: &Pool, index: u16) -> Option<u32>
    ensures { result ≡ number_at names.now pool.now index }
{
    names.number(pool.class(index)?)
}

/// The number of the class at an index, which may be past the pool.
fn number_of_index(names: &TextNumbers, pool: &Pool, index: u32) -> Option<u32>
    ensures { result ≡ number_at names.now pool.now index }
{
    if index < u32::from(pool.len()) {
        number_at(names, pool, index as u16)
    } else {
        None
    }
}

/// The numbers of the classes at these indices.
fn numbers_at(
    alloc: Global,
    names: &TextNumbers,
    pool: &Pool,
    indices: &[u32],
) -> Result<Numbers, OutOfMemory>
    ensures { IfOk result (λ numbers. numbers ≡ flat_map (λ index. listed (number_at names.now pool.now index)) indices.now) }
{
    let mut numbers = Numbers::new(alloc);
    for index in indices {
        if let Some(number) = number_of_index(names, pool, *index) {
            numbers.push(number)?;
        }
    }
    Ok(numbers)
}

/// The number of the first class of a package, or of all where there is none.
fn package_number(packages: &TextNumbers, name: &[u16]) -> u32
    ensures { result ≡ kind_number packages.now name.now }
{
    match packages.number(name) {
        Some(number) => number,
        None => packages.len() as u32,
    }
}

/// A class as numbers, by the names and packages of all.
fn rank(
    alloc: Global,
    names: &TextNumbers,
    packages: &TextNumbers,
    class: &ClassFile,
) -> Result<Class, OutOfMemory>
    ensures { IfOk result (λ ranked. ranked ≡ rank names.now packages.now class.now) }
{
    let package = package_of(name_of(class));
    Ok(Class {
        superclass: number_at(names, &class.pool, class.super_class),
        interfaces: numbers_at(alloc, names, &class.pool, class.interfaces.as_slice())?,
        is_interface: has(class.flags.0, INTERFACE),
        is_final: has(class.flags.0, FINAL),
        package: package_number(packages, package),
    })
}

/// Classes as numbers, by their names.
pub(crate) fn rank_classes(
    alloc: Global,
    classes: &[ClassFile],
    names: &TextNumbers,
) -> Result<Classes, OutOfMemory>
    ensures { IfOk result (λ ranked. ranked ≡ map (rank names.now (map package_name classes.now)) classes.now) }
{
    let packages = package_names(alloc, classes)?;
    let mut ranked = Classes::new(alloc);
    for class in classes {
        ranked.push(rank(alloc, names, &packages, class)?)?;
    }
    Ok(ranked)
}

/// The text at an index, or none.
fn text_at(pool: &Pool, index: u16) -> &[u16]
    ensures { result.now ≡ or_none (text_at pool.now index) }
{
    pool.text(index).unwrap_or(&[])
}

/// Adds the names and descriptors of fields.
fn push_field_texts(
    texts: &mut PairNumbers,
    pool: &Pool,
    fields: &[Field],
) -> Result<(), OutOfMemory>
    ensures { OnOk result (texts.new ≡ texts.old ++ map (λ field. texts_in pool.now field.name field.descriptor) fields.now) }
{
    for field in fields {
        let name = text_at(pool, field.name);
        texts.push(name, text_at(pool, field.descriptor))?;
    }
    Ok(())
}

/// Adds the names and descriptors of methods.
fn push_method_texts(
    texts: &mut PairNumbers,
    pool: &Pool,
    methods: &[Method],
) -> Result<(), OutOfMemory>
    ensures { OnOk result (texts.new ≡ texts.old ++ map (λ method. texts_in pool.now method.name method.descriptor) methods.now) }
{
    for method in methods {
        let name = text_at(pool, method.name);
        texts.push(name, text_at(pool, method.descriptor))?;
    }
    Ok(())
}

/// The names and descriptors of the fields of classes.
pub(crate) fn field_texts(alloc: Global, classes: &[ClassFile]) -> Result<PairNumbers, OutOfMemory>
    ensures { IfOk result (λ texts. texts ≡ flat_map texts_of_fields classes.now) }
{
    let mut texts = PairNumbers::new(alloc);
    for class in classes {
        push_field_texts(&mut texts, &class.pool, class.fields.as_slice())?;
    }
    Ok(texts)
}

/// The names and descriptors of the methods of classes.
pub(crate) fn method_texts(alloc: Global, classes: &[ClassFile]) -> Result<PairNumbers, OutOfMemory>
    ensures { IfOk result (λ texts. texts ≡ flat_map texts_of_methods classes.now) }
{
    let mut texts = PairNumbers::new(alloc);
    for class in classes {
        push_method_texts(&mut texts, &class.pool, class.methods.as_slice())?;
    }
    Ok(texts)
}

/// The number of the first member of the name and descriptor at two indices, or of all where there is none.
fn signature(texts: &PairNumbers, pool: &Pool, name: u16, descriptor: u16) -> u32
    ensures { result ≡ own_number texts.now (texts_in pool.now name descriptor) }
{
    match texts.number(text_at(pool, name), text_at(pool, descriptor)) {
        Some(number) => number,
        None => texts.len() as u32,
    }
}

/// A field of the class of a number as numbers, by the texts of all.
fn rank_field(texts: &PairNumbers, class: u32, pool: &Pool, field: &Field) -> RankedField
    ensures { result ≡ rank_field texts.now class pool.now field.now }
{
    RankedField {
        declared: Declared {
            class,
            signature: signature(texts, pool, field.name, field.descriptor),
        },
        is_static: has(field.flags.0, STATIC),
    }
}

/// A method of the class of a number as numbers, by the texts of all.
fn rank_method(texts: &PairNumbers, class: u32, pool: &Pool, method: &Method) -> RankedMethod
    ensures { result ≡ rank_method texts.now class pool.now method.now }
{
    let flags = method.flags.0;
    RankedMethod {
        declared: Declared {
            class,
            signature: signature(texts, pool, method.name, method.descriptor),
        },
        visibility: visibility(flags),
        is_static: has(flags, STATIC),
        is_final: has(flags, FINAL),
        is_abstract: has(flags, ABSTRACT),
    }
}

/// Adds fields of the class of a number.
fn push_fields(
    ranked: &mut RankedFields,
    texts: &PairNumbers,
    number: u32,
    pool: &Pool,
    fields: &[Field],
) -> Result<(), OutOfMemory>
    ensures { OnOk result (ranked.new ≡ ranked.old ++ map (rank_field texts.now number pool.now) fields.now) }
{
    for field in fields {
        ranked.push(rank_field(texts, number, pool, field))?;
    }
    Ok(())
}

/// Adds methods of the class of a number.
fn push_methods(
    ranked: &mut RankedMethods,
    texts: &PairNumbers,
    number: u32,
    pool: &Pool,
    methods: &[Method],
) -> Result<(), OutOfMemory>
    ensures { OnOk result (ranked.new ≡ ranked.old ++ map (rank_method texts.now number pool.now) methods.now) }
{
    for method in methods {
        ranked.push(rank_method(texts, number, pool, method))?;
    }
    Ok(())
}

/// The fields of classes as numbers, by the texts of all.
pub(crate) fn rank_fields(
    alloc: Global,
    classes: &[ClassFile],
    texts: &PairNumbers,
) -> Result<RankedFields, OutOfMemory>
    ensures fields { IfOk result (λ ranked. ranked ≡ flat_map (fields_of_class texts.now) (enumerate_from 0 classes.now)) }
    ensures few { IfOk result (λ ranked. length texts.now < 2 ^ 32) }
{
    let mut ranked = RankedFields::with_capacity(alloc, texts.len())?;
    for (index, class) in classes.iter().enumerate() {
        push_fields(
            &mut ranked,
            texts,
            number_of(index)?,
            &class.pool,
            class.fields.as_slice(),
        )?;
    }
    Ok(ranked)
}

/// The methods of classes as numbers, by the texts of all.
pub(crate) fn rank_methods(
    alloc: Global,
    classes: &[ClassFile],
    texts: &PairNumbers,
) -> Result<RankedMethods, OutOfMemory>
    ensures methods { IfOk result (λ ranked. ranked ≡ flat_map (methods_of_class texts.now) (enumerate_from 0 classes.now)) }
    ensures few { IfOk result (λ ranked. length texts.now < 2 ^ 32) }
{
    let mut ranked = RankedMethods::with_capacity(alloc, texts.len())?;
    for (index, class) in classes.iter().enumerate() {
        push_methods(
            &mut ranked,
            texts,
            number_of(index)?,
            &class.pool,
            class.methods.as_slice(),
        )?;
    }
    Ok(ranked)
}
