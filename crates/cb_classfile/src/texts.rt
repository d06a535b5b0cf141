// What the texts of a pool are.
ghost use Rattle.std.specs.Prelude.{◌≡◌, ℕ, List, IfOk, IfSome, Some};
ghost use Rattle.std.specs.Option.{option_map, option_or};
ghost use Rattle.cb_names.specs.Descriptors.{floating_in};
ghost use Rattle.cb_names.specs.Types.{IsType, type_of, type_text};
ghost use Rattle.cb_classfile.specs.Pool.{text_at};
ghost use Rattle.cb_classfile.specs.Texts.{AreFacts, Describe};

use cb_names::{
    FieldType, Floating, MethodFacts, field_type, is_array_descriptor, method_facts, name_kinds,
};
use cb_text::{Constant, Pool};
use std::alloc::{AllocError, Global};

/// What a text is as a name and as a descriptor (JVMS §4.2, §4.3). `Constants` asks it.
#[derive(Clone, Copy, Debug)]
pub struct TextFacts {
    /// A name without `.`, `;`, `[` and `/`.
    pub unqualified_name: bool,
    /// A method's name.
    pub method_name: bool,
    /// The name of a class or interface.
    pub class_name: bool,
    /// A field descriptor with a dimension at least.
    pub array_descriptor: bool,
    /// A field descriptor.
    pub field_descriptor: bool,
    /// A method descriptor whose parameters take so many words.
    pub parameter_words: Option<u8>,
    /// The first floating-point type that it names as a descriptor, told where it is one.
    pub floating: Option<Option<Floating>>,
}

/// The greatest length of a text that isn't looked at before it is asked for where no constant names it as a name or a
/// descriptor. Of many class files these are most texts, and each question about one takes constant time still.
const LONGEST_LEFT: usize = 64;

/// What the texts of a pool are, at the places of its constants. A short text that no constant names as a name or a
/// descriptor has none, as other constants. `AllocError` where no memory was to be had. Takes time in the length of the
/// texts.
pub fn facts_of(alloc: Global, pool: &Pool) -> Result<Vec<Option<TextFacts>>, AllocError>
    ensures { IfOk result (λ facts. Describe pool.now facts.items) }
{
    let named = named_texts(alloc, pool)?;
    let mut facts = Vec::with_capacity(alloc, usize::from(pool.len()))?;
    for index in 1..pool.len() {
        let is_named = named.get(usize::from(index)).copied().unwrap_or(false);
        facts.push(facts_at(pool, index, is_named))?;
    }
    Ok(facts)
}

/// What the text at an index is, unless it is short and isn't named.
fn facts_at(pool: &Pool, index: u16, is_named: bool) -> Option<TextFacts>
    ensures { IfSome result (λ facts. (text : List ℕ) → text_at pool.now index ≡ Some text → AreFacts text facts) }
{
    let text = pool.text(index)?;
    if is_named || text.len() > LONGEST_LEFT {
        Some(facts_of_text(text))
    } else {
        None
    }
}

/// Which indices constants name as those of names and descriptors. No clause says so: what isn't marked is looked at
/// where it is asked for.
fn named_texts(alloc: Global, pool: &Pool) -> Result<Vec<bool>, AllocError> {
    let mut named = vec![in alloc; false; usize::from(pool.len())]?;
    for constant in pool.constants() {
        match constant {
            Constant::Class(name) | Constant::MethodType(name) => mark(&mut named, *name),
            Constant::NameAndType(name, descriptor) => {
                mark(&mut named, *name);
                mark(&mut named, *descriptor);
            }
            _ => {}
        }
    }
    Ok(named)
}

/// Marks an index, if it is one.
fn mark(named: &mut Vec<bool>, index: u16) {
    if let Some(slot) = named.get_mut(usize::from(index)) {
        *slot = true;
    }
}

/// What a text is. Takes time in its length.
pub(crate) fn facts_of_text(text: &[u16]) -> TextFacts
    ensures { AreFacts text.now result }
{
    let names = name_kinds(text);
    let field = field_type(text);
    let method = method_facts(text);
    TextFacts {
        unqualified_name: names.unqualified,
        method_name: names.method,
        class_name: names.class,
        array_descriptor: is_array_descriptor(text),
        field_descriptor: field.is_some(),
        parameter_words: words_told(method),
        floating: floating_told(field, method),
    }
}

/// How many words the parameters take of what a text says as a method descriptor.
fn words_told(method: Option<MethodFacts>) -> Option<u8>
    ensures { result ≡ option_map (λ facts. facts.words) method }
{
    Some(method?.words)
}

/// The first floating-point type of what a text says as the descriptor of a field or else of a method.
fn floating_told(
    field: Option<FieldType<'_>>,
    method: Option<MethodFacts>,
) -> Option<Option<Floating>>
    requires { IfSome field (λ type. IsType (type_of type)) }
    ensures { result ≡ option_or (option_map (λ type. floating_in (type_text (type_of type))) field.entry)
        (option_map (λ facts. facts.floating) method) }
{
    match field {
        Some(found) => Some(found.floating()),
        None => Some(method?.floating),
    }
}
