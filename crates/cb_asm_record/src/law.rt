// Laws of the definitions.
ghost use Rattle.std.specs.Prelude.{◌≡◌, ℕ, List, ◌++◌, Some, Contains};
ghost use Rattle.cb_asm_record.specs.Constants.{constant_of, entries_of, index_of, pool_of};
ghost use Rattle.cb_asm_record.specs.Entries.{Class, Entry, Member, String, Text};
ghost use Rattle.cb_text.specs.Naming.{MemberNames, class_at, member_at, string_at, text_at};
ghost use Rattle.cb_text.specs.Pool.{constant_at};

/// The index of a constant that is used names it, and what is used later doesn't move it. What the constant says is read
/// back: a text, a class, a string, and a field or method.
pub fn constants_named()
    ensures named { (entries : List Entry) (entry : Entry) → Contains entries entry
        → constant_at (pool_of entries) (index_of entries entry) ≡ Some (constant_of entries entry) }
    ensures standing { (used more : List Entry) (entry : Entry) → Contains (entries_of used) entry
        → index_of (entries_of (used ++ more)) entry ≡ index_of (entries_of used) entry }
    ensures texts { (used : List Entry) (text : List ℕ) → let entries = entries_of used in Contains entries (Text text)
        → text_at (pool_of entries) (index_of entries (Text text)) ≡ Some text }
    ensures classes { (used : List Entry) (name : List ℕ) → let entries = entries_of used in Contains entries (Class name)
        → class_at (pool_of entries) (index_of entries (Class name)) ≡ Some name }
    ensures strings { (used : List Entry) (text : List ℕ) → let entries = entries_of used in Contains entries (String text)
        → string_at (pool_of entries) (index_of entries (String text)) ≡ Some text }
    ensures members { (used : List Entry) (member : MemberNames) → let entries = entries_of used in Contains entries (Member member)
        → member_at (pool_of entries) (index_of entries (Member member)) ≡ Some member }
{}
