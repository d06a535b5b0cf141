// The program of classes.
ghost use Rattle.std.specs.Prelude.{◌≡◌, ◌≤◌, ◌<◌, ℕ, length, map, IfErr, IfOk};
ghost use Rattle.std.specs.List.{AllByRecursion};
ghost use Rattle.cb_hierarchy.specs.Bad.{AreGood};
ghost use Rattle.cb_kinds.specs.Basics.{kind_number};
ghost use Rattle.cb_link.specs.Having.{HasOwnName};
ghost use Rattle.cb_link.specs.Inner.{IsTooMany};
ghost use Rattle.cb_link.specs.InnerJudged.{IsBegun};
ghost use Rattle.cb_link.specs.Judging.{HindersProgram, IsProgram, class_limit, site_count, site_limit};
ghost use Rattle.cb_link.specs.InnerParts.{AreParts, HasParts, linked_with};
ghost use Rattle.cb_link.specs.Making.{constants, fixed_kinds, kinds, makings};
ghost use Rattle.cb_link.specs.Numbers.{fields_of, hierarchy, methods_of, name_of, ranked_methods};
ghost use Rattle.cb_link.specs.Program.{linked, linked_field, linked_method, linked_site};

use crate::all_tables::Tables;
use crate::base::Base;
use crate::kinds::{constants_of, kinds_of};
use crate::lacking::first_lacking;
use crate::resolver::Resolver;
use crate::sites::sites_by_number;
use crate::tables::{fields_by_number, fixed_by_number, methods_by_number};
use crate::units::units_of;
use crate::{LinkedFields, LinkedMethods, Program, Quantity, Refusal, Sites};
use cb_classfile::{ClassFile, Classes};
use cb_kinds::Texts;
use cb_plain::{Numbers, OutOfMemory};
use cb_text::Units;
use std::alloc::Global;

/// The most methods of a program.
const METHOD_LIMIT: usize = 16_384;

/// The program of classes, which begins with the method `main` of the main one. There are at most 1,024 classes, none has the name
/// of an array, and the first fifty count as the library's. Names are internal names (JVMS §4.2.1).
///
/// The classes are refused in this order: `BadHierarchy` for the first class that can't be in a hierarchy (JVMS §5.3.5);
/// `MissingMember` for the first instruction, by class, method and place, that names a member that can't be had (JVMS §5.4.3);
/// `NoMain` where the main class and its superclasses have no static method `main`; `TooLarge` where there are more than 16,384
/// methods, and then where there are more than 16,384 sites. `OutOfMemory` where no memory was to be had. There is no other
/// refusal. Takes time in the size of the classes, times a logarithm, and in the instructions that name members, times what is
/// above their classes.
pub fn program_of(alloc: Global, classes: Classes, main: Units) -> Result<Program, Refusal>
    requires few { length classes ≤ class_limit }
    requires named { AllByRecursion HasOwnName classes }
    ensures made { IfOk result (λ program. (method : ℕ) × IsProgram classes main method × (program ≡ linked classes main method)) }
    ensures refused { IfErr result (HindersProgram classes main) }
{
    let base = based(alloc, classes, &main)?;
    let tables = Tables::of(alloc, &base)?;
    Ok(Program::of(base, tables))
}

/// The program without its tables, refused likewise.
fn based(alloc: Global, classes: Classes, main: &Units) -> Result<Base, Refusal>
    requires few { length classes ≤ class_limit }
    requires named { AllByRecursion HasOwnName classes }
    ensures made { IfOk result (λ base. (method : ℕ) × IsProgram classes main.now method × (base ≡ linked classes main.now method)) }
    ensures refused { IfErr result (HindersProgram classes main.now) }
{
    let resolver = Resolver::of(alloc, classes)?;
    let method = begin(alloc, &resolver, main)?;
    let parts = parts_of(alloc, &resolver)?;
    let class = class_or_count(&resolver, main.as_slice());
    Ok(base_of(resolver, parts, class, method))
}

/// The method with which a program begins. Refused for the first instruction that names a member that can't be had, want of a
/// main method, and too many methods; or where no memory was to be had.
fn begin(alloc: Global, resolver: &Resolver, main: &Units) -> Result<u32, Refusal>
    ensures made { IfOk result (IsBegun resolver.now main.now) }
    ensures refused { AreGood (hierarchy resolver.now) (ranked_methods resolver.now) → IfErr result (HindersProgram resolver.now main.now) }
{
    if let Some((number, member)) = first_lacking(alloc, resolver)? {
        return Err(Refusal::MissingMember {
            class: class_name(alloc, resolver.classes.get(number as usize))?,
            member,
        });
    }
    let Some(method) = resolver.main_method(main.as_slice()) else {
        return Err(Refusal::NoMain {
            class: units_of(alloc, main.as_slice())?,
        });
    };
    if resolver.members.methods.len() > METHOD_LIMIT {
        return Err(Refusal::TooLarge {
            what: Quantity::Methods,
            count: METHOD_LIMIT as u64 + 1,
            limit: METHOD_LIMIT as u64,
        });
    }
    Ok(method)
}

/// The name of a class.
fn class_name(alloc: Global, class: &ClassFile) -> Result<Units, OutOfMemory>
    ensures { IfOk result (λ name. name ≡ name_of class.now) }
{
    units_of(alloc, class.pool.class(class.this_class).unwrap_or(&[]))
}

/// The kinds of a program, those of the machine's own sites, and its texts.
#[derive(Drop)]
pub(crate) struct Kinded {
    pub(crate) kinds: Texts,
    pub(crate) fixed: Numbers,
    pub(crate) constants: Texts,
}

/// The methods, fields and sites of a program.
#[derive(Drop)]
pub(crate) struct Listed {
    pub(crate) methods: LinkedMethods,
    pub(crate) fields: LinkedFields,
    pub(crate) sites: Sites,
}

/// The kinds and texts of the program of classes.
fn kinds_in(alloc: Global, classes: &[ClassFile]) -> Result<Kinded, OutOfMemory>
    ensures { IfOk result (λ kinded. (kinded.kinds ≡ kinds classes.now)
        × (kinded.fixed ≡ map (kind_number (kinds classes.now)) fixed_kinds) × (kinded.constants ≡ constants classes.now)) }
{
    let kinds = kinds_of(alloc, classes)?;
    let fixed = fixed_by_number(alloc, &kinds)?;
    let constants = constants_of(alloc, classes)?;
    Ok(Kinded {
        kinds,
        fixed,
        constants,
    })
}

/// The methods, fields and sites of the program of classes. Refused where there are too many sites, or where no memory was to
/// be had.
fn list_all(alloc: Global, classes: &[ClassFile], kinds: &Texts) -> Result<Listed, Refusal>
    ensures made { IfOk result (λ listed. (listed.methods ≡ map (linked_method kinds.now) (methods_of classes.now))
        × (listed.fields ≡ map (linked_field kinds.now) (fields_of classes.now))
        × (listed.sites ≡ map (linked_site kinds.now) (makings classes.now)) × (site_count classes.now ≤ site_limit)) }
    ensures refused { IfErr result (IsTooMany (site_limit < site_count classes.now)) }
{
    let sites = sites_by_number(alloc, classes, kinds)?;
    let methods = methods_by_number(alloc, classes, kinds)?;
    let fields = fields_by_number(alloc, classes, kinds)?;
    Ok(Listed {
        methods,
        fields,
        sites,
    })
}

/// The number of the class of a name, or the number of classes where there is none.
fn class_or_count(resolver: &Resolver, name: &[u16]) -> u32
    ensures { result ≡ kind_number (map name_of resolver.now) name.now }
{
    match resolver.class_number(name) {
        Some(class) => class,
        None => resolver.texts.classes.len() as u32,
    }
}

/// What a program numbers beside its classes.
#[derive(Drop)]
pub(crate) struct Parts {
    kinded: Kinded,
    listed: Listed,
}

/// What the program of classes numbers. Refused where there are too many sites, or where no memory was to be had.
fn parts_of(alloc: Global, resolver: &Resolver) -> Result<Parts, Refusal>
    ensures made { IfOk result (AreParts resolver.now) }
    ensures refused { IfErr result (IsTooMany (site_limit < site_count resolver.now)) }
{
    let classes = resolver.classes().as_slice();
    let kinded = kinds_in(alloc, classes)?;
    let listed = list_all(alloc, classes, &kinded.kinds)?;
    Ok(Parts { kinded, listed })
}

/// The program of these classes with this main class, which begins with a method.
#[tactic(none)]
fn base_of(resolver: Resolver, parts: Parts, class: u32, method: u32) -> Base
    requires { HasParts resolver parts class method }
    ensures { result ≡ linked_with resolver class method }
{
    let kinded = parts.kinded;
    let listed = parts.listed;
    Base {
        resolver,
        kinds: kinded.kinds,
        methods: listed.methods,
        fields: listed.fields,
        fixed: kinded.fixed,
        sites: listed.sites,
        constants: kinded.constants,
        main_class: class,
        main_method: method,
    }
}
