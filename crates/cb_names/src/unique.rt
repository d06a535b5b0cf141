// Each descriptor says just one type.
ghost use Rattle.std.specs.Prelude.{◌≡◌, ℕ, List};
ghost use Rattle.cb_names.specs.Descriptors.{words_of};
ghost use Rattle.cb_names.specs.Types.{JavaMethodType, JavaType, SpellsMethodType, SpellsType, type_text, type_words};

/// A text is the descriptor of at most one type, and tells how many words a value of it takes.
pub fn one_type()
    ensures one { (text : List ℕ) (one other : JavaType) → SpellsType text one → SpellsType text other
        → one ≡ other }
    ensures words { (type : JavaType) → words_of (type_text type) ≡ type_words type }
{}

/// A text is the descriptor of at most one type of a method.
pub fn one_method_type()
    ensures { (text : List ℕ) (one other : JavaMethodType) → SpellsMethodType text one → SpellsMethodType text other
        → one ≡ other }
{}
