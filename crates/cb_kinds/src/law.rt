// What texts and descriptors say, in other words.
ghost use Rattle.std.specs.Prelude.{◌≡◌, ℕ, List, [], ◌∷◌, map, option_map};
ghost use Rattle.cb_kinds.specs.Descriptors.{parameters_of, result_of, types_of};
ghost use Rattle.cb_kinds.specs.Texts.{entered_all, firsts};
ghost use Rattle.cb_names.specs.Types.{JavaMethodType, JavaType, SpellsMethodType, SpellsType, type_text};

/// To enter texts one after the other is to keep each where it stands first.
pub fn each_once()
    ensures { (texts : List (List ℕ)) → entered_all [] texts ≡ firsts texts }
{}

/// The types in a descriptor are those that its grammar says (JVMS §4.3).
pub fn types_as_spelled()
    ensures field { (text : List ℕ) (type : JavaType) → SpellsType text type → types_of text ≡ text ∷ [] }
    ensures parameters { (text : List ℕ) (type : JavaMethodType) → SpellsMethodType text type
        → parameters_of text ≡ map type_text type.parameters }
    ensures result { (text : List ℕ) (type : JavaMethodType) → SpellsMethodType text type
        → result_of text ≡ option_map type_text type.result }
{}
