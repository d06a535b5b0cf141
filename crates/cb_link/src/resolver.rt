// Where members are found.
ghost use Rattle.std.specs.Prelude.{◌≡◌, ◌≤◌, ◌<◌, ℕ, List, length, map, option_copied, slice_get, IfErr, IfOk};
ghost use Rattle.cb_hierarchy.specs.Bad.{AreGood};
ghost use Rattle.cb_hierarchy.specs.Members.{method_of};
ghost use Rattle.cb_hierarchy.specs.Orders.{upwards};
ghost use Rattle.cb_hierarchy.specs.Resolution.{first_some};
ghost use Rattle.cb_link.specs.Inner.{names_of_member};
ghost use Rattle.cb_link.specs.Judging.{HindersProgram, class_limit};
ghost use Rattle.cb_link.specs.Numbers.{class_number, field_texts, hierarchy, method_texts, name_of, ranked_fields, ranked_methods};
ghost use Rattle.cb_link.specs.Resolving.{found_field, found_method, holder, main_method, static_one};

use crate::Refusal;
use crate::ranked::{
    class_names, field_texts, method_texts, name_of, rank_classes, rank_fields, rank_methods,
};
use crate::units::units_of;
use cb_classfile::{ClassFile, Classes};
use cb_hierarchy::{
    Classes as RankedClasses, Field, FieldTable, Hierarchy, Method, MethodTable, first_bad,
    resolved_field, resolved_method,
};
use cb_kinds::{PairNumbers, TextNumbers};
use cb_plain::OutOfMemory;
use cb_text::Member;
use std::alloc::Global;
use std::marker::Model;

/// The number of java/lang/Object.
const OBJECT: u32 = 0;

/// `[`, with which the name of an array type begins (JVMS §4.4.1).
const BRACKET: u16 = b'[' as u16;

/// The name of the method with which a program begins, and its descriptor.
const MAIN: &[u16] = &[b'm' as u16, b'a' as u16, b'i' as u16, b'n' as u16];

const MAIN_TYPE: &[u16] = &[
    b'(' as u16,
    b'[' as u16,
    b'L' as u16,
    b'j' as u16,
    b'a' as u16,
    b'v' as u16,
    b'a' as u16,
    b'/' as u16,
    b'l' as u16,
    b'a' as u16,
    b'n' as u16,
    b'g' as u16,
    b'/' as u16,
    b'S' as u16,
    b't' as u16,
    b'r' as u16,
    b'i' as u16,
    b'n' as u16,
    b'g' as u16,
    b';' as u16,
    b')' as u16,
    b'V' as u16,
];

/// The classes of a program, none of them bad, with what finds classes and members by name. Contracts see it as the list of
/// classes.
#[derive(Drop)]
pub(crate) struct Resolver {
    pub(crate) classes: Classes,
    pub(crate) texts: Box<NamedTexts>,
    pub(crate) members: Box<Members>,
    pub(crate) hierarchy: Hierarchy,
}

/// The names of classes, and the names and descriptors of their members.
#[derive(Drop)]
pub(crate) struct NamedTexts {
    pub(crate) classes: TextNumbers,
    pub(crate) fields: PairNumbers,
    pub(crate) methods: PairNumbers,
}

/// The members of classes as numbers.
#[derive(Drop)]
pub(crate) struct Members {
    pub(crate) fields: FieldTable,
    pub(crate) methods: MethodTable,
}

impl Model for Resolver {
    ghost use Rattle.std.specs.Prelude.{List, map};
    ghost use Rattle.cb_classfile.specs.declared.class.ClassFile.{ClassFile as AnyClass};
    ghost use Rattle.cb_link.specs.Inner.{Resolves};

    ghost Value = { List AnyClass };

    ghost view = { λ resolver. resolver.classes };

    ghost invariant = { λ resolver. Resolves resolver.classes resolver.texts.value.classes resolver.texts.value.fields resolver.texts.value.methods
        resolver.members.value.fields resolver.members.value.methods resolver.hierarchy };
}

impl Resolver {
    /// What finds the members of classes, of which there are at most 1,024. Refused where a class is bad, or where no memory
    /// was to be had.
    pub(crate) fn of(alloc: Global, classes: Classes) -> Result<Self, Refusal>
        requires { length classes ≤ class_limit }
        ensures made { IfOk result (λ resolver. (resolver ≡ classes) × AreGood (hierarchy classes) (ranked_methods classes)) }
        ensures refused { (main : List ℕ) → IfErr result (HindersProgram classes main) }
    {
        let texts = boxed_texts(alloc, classes.as_slice())?;
        let members = boxed_members(alloc, classes.as_slice(), &texts)?;
        let hierarchy = judged(alloc, classes.as_slice(), &texts.classes, &members.methods)?;
        Ok(Resolver {
            classes,
            texts,
            members,
            hierarchy,
        })
    }

    /// The classes by their numbers.
    pub(crate) fn classes(&self) -> &Classes
        ensures { result.now ≡ self.now }
    {
        &self.classes
    }

    /// The field of a number, if there is one.
    pub(crate) fn field(&self, number: u32) -> Option<&Field>
        ensures { option_copied result ≡ slice_get (ranked_fields self.now) number }
    {
        if (number as usize) < self.members.fields.len() {
            Some(self.members.fields.field(number))
        } else {
            None
        }
    }

    /// The method of a number, if there is one.
    pub(crate) fn method(&self, number: u32) -> Option<&Method>
        ensures { option_copied result ≡ slice_get (ranked_methods self.now) number }
    {
        if (number as usize) < self.members.methods.len() {
            Some(self.members.methods.method(number))
        } else {
            None
        }
    }

    /// The number of the class of a name.
    pub(crate) fn class_number(&self, name: &[u16]) -> Option<u32>
        ensures { result ≡ class_number self.now name.now }
    {
        self.texts.classes.number(name)
    }

    /// The number of the field that a constant names.
    pub(crate) fn found_field(&self, member: Member<'_>) -> Option<u32>
        ensures { result ≡ found_field self.now (names_of_member member.entry) }
    {
        let class = self.holder(member.class)?;
        let signature = self.texts.fields.number(member.name, member.descriptor)?;
        resolved_field(&self.hierarchy, &self.members.fields, class, signature)
    }

    /// The number of the method that a constant names.
    pub(crate) fn found_method(
        &self,
        alloc: Global,
        member: Member<'_>,
    ) -> Result<Option<u32>, OutOfMemory>
        ensures { IfOk result (λ method. method ≡ found_method self.now (names_of_member member.entry)) }
    {
        let Some(class) = self.holder(member.class) else {
            return Ok(None);
        };
        let Some(signature) = self.texts.methods.number(member.name, member.descriptor) else {
            return Ok(None);
        };
        resolved_method(
            alloc,
            &self.hierarchy,
            &self.members.methods,
            OBJECT,
            class,
            signature,
        )
    }

    /// The number of the method with which a program begins.
    pub(crate) fn main_method(&self, name: &[u16]) -> Option<u32>
        ensures { result ≡ main_method self.now name.now }
    {
        let class = self.class_number(name)?;
        let signature = self.texts.methods.number(MAIN, MAIN_TYPE)?;
        self.static_upwards(class, signature)
    }

    /// The number of the class in which the members of a name are looked up: an array's are those of Object.
    fn holder(&self, name: &[u16]) -> Option<u32>
        ensures { result ≡ holder self.now name.now }
    {
        if name.first() == Some(&BRACKET) {
            Some(OBJECT)
        } else {
            self.class_number(name)
        }
    }

    /// The first static method of a signature that a class or a superclass declares.
    fn static_upwards(&self, class: u32, signature: u32) -> Option<u32>
        requires { class < length (hierarchy self.now) }
        ensures { result ≡ first_some (map (λ number. static_one self.now (method_of (ranked_methods self.now) number signature)) (upwards (hierarchy self.now) class)) }
    {
        for number in self.hierarchy.upwards(class) {
            if let Some(method) = self.static_of(*number, signature) {
                return Some(method);
            }
        }
        None
    }

    /// The static method of a signature that a class declares.
    fn static_of(&self, class: u32, signature: u32) -> Option<u32>
        ensures { result ≡ static_one self.now (method_of (ranked_methods self.now) class signature) }
    {
        let number = self.members.methods.declared(class, signature)?;
        let method = self.method(number)?;
        if method.is_static { Some(number) } else { None }
    }
}

/// The fields of classes as numbers.
fn field_table(
    alloc: Global,
    classes: &[ClassFile],
    texts: &PairNumbers,
) -> Result<FieldTable, OutOfMemory>
    requires { texts.now ≡ field_texts classes.now }
    ensures { IfOk result (λ table. table ≡ ranked_fields classes.now) }
{
    FieldTable::of(alloc, rank_fields(alloc, classes, texts)?)
}

/// The methods of classes as numbers.
fn method_table(
    alloc: Global,
    classes: &[ClassFile],
    texts: &PairNumbers,
) -> Result<MethodTable, OutOfMemory>
    requires { texts.now ≡ method_texts classes.now }
    ensures { IfOk result (λ table. table ≡ ranked_methods classes.now) }
{
    MethodTable::of(alloc, rank_methods(alloc, classes, texts)?)
}

/// The hierarchy of classes, none of which is bad. Refused where one is, or where no memory was to be had.
fn judged(
    alloc: Global,
    classes: &[ClassFile],
    names: &TextNumbers,
    methods: &MethodTable,
) -> Result<Hierarchy, Refusal>
    requires few { length classes.now ≤ class_limit }
    requires names { names.now ≡ map name_of classes.now }
    requires methods { methods.now ≡ ranked_methods classes.now }
    ensures made { IfOk result (λ made. (made ≡ hierarchy classes.now) × AreGood (hierarchy classes.now) (ranked_methods classes.now)) }
    ensures refused { (main : List ℕ) → IfErr result (HindersProgram classes.now main) }
{
    let ranked = rank_classes(alloc, classes, names)?;
    hierarchy_of(alloc, classes, ranked, methods)
}

/// The hierarchy of ranked classes, none of which is bad. Refused where one is, or where no memory was to be had.
fn hierarchy_of(
    alloc: Global,
    classes: &[ClassFile],
    ranked: RankedClasses,
    methods: &MethodTable,
) -> Result<Hierarchy, Refusal>
    requires few { length classes.now ≤ class_limit }
    requires ranked { ranked ≡ hierarchy classes.now }
    requires methods { methods.now ≡ ranked_methods classes.now }
    ensures made { IfOk result (λ made. (made ≡ hierarchy classes.now) × AreGood (hierarchy classes.now) (ranked_methods classes.now)) }
    ensures refused { (main : List ℕ) → IfErr result (HindersProgram classes.now main) }
{
    if let Some(number) = first_bad(alloc, &ranked, methods)? {
        return Err(Refusal::BadHierarchy {
            class: units_of(alloc, name_of(&classes[number as usize]))?,
        });
    }
    let hierarchy = Hierarchy::of(alloc, ranked)?;
    Ok(hierarchy)
}

/// The names of classes, and the names and descriptors of their members.
fn named_texts(alloc: Global, classes: &[ClassFile]) -> Result<NamedTexts, OutOfMemory>
    ensures { IfOk result (λ texts. (texts.classes ≡ map name_of classes.now) × (texts.fields ≡ field_texts classes.now) × (texts.methods ≡ method_texts classes.now)) }
{
    Ok(NamedTexts {
        classes: class_names(alloc, classes)?,
        fields: field_texts(alloc, classes)?,
        methods: method_texts(alloc, classes)?,
    })
}

/// The members of classes as numbers.
fn make_members(
    alloc: Global,
    classes: &[ClassFile],
    texts: &NamedTexts,
) -> Result<Members, OutOfMemory>
    requires fields { texts.now.fields ≡ field_texts classes.now }
    requires methods { texts.now.methods ≡ method_texts classes.now }
    ensures { IfOk result (λ members. (members.fields ≡ ranked_fields classes.now) × (members.methods ≡ ranked_methods classes.now)) }
{
    Ok(Members {
        fields: field_table(alloc, classes, &texts.fields)?,
        methods: method_table(alloc, classes, &texts.methods)?,
    })
}

/// The same in a box, so that what has a resolver is small.
fn boxed_texts(alloc: Global, classes: &[ClassFile]) -> Result<Box<NamedTexts>, OutOfMemory>
    ensures { IfOk result (λ texts. (texts.value.classes ≡ map name_of classes.now) × (texts.value.fields ≡ field_texts classes.now) × (texts.value.methods ≡ method_texts classes.now)) }
{
    let texts = named_texts(alloc, classes)?;
    Ok(Box::new(alloc, texts)?)
}

/// The same in a box.
fn boxed_members(
    alloc: Global,
    classes: &[ClassFile],
    texts: &NamedTexts,
) -> Result<Box<Members>, OutOfMemory>
    requires fields { texts.now.fields ≡ field_texts classes.now }
    requires methods { texts.now.methods ≡ method_texts classes.now }
    ensures { IfOk result (λ members. (members.value.fields ≡ ranked_fields classes.now) × (members.value.methods ≡ ranked_methods classes.now)) }
{
    let members = make_members(alloc, classes, texts)?;
    Ok(Box::new(alloc, members)?)
}
