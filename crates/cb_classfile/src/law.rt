// Laws of the grammar.
ghost use Rattle.std.specs.Prelude.{◌≡◌, ◌≤◌, ℕ, List, Some, length};
ghost use Rattle.cb_text.specs.declared.constant.Constant.{Constant as AnyConstant};
ghost use Rattle.cb_classfile.specs.Attributes.{least_index};
ghost use Rattle.cb_classfile.specs.Class.{IsWellFormed, SpellsClass, class_bytes};
ghost use Rattle.cb_classfile.specs.Pool.{text_at};
ghost use Rattle.cb_classfile.specs.declared.class.ClassFile.{ClassFile as AnyClass};

/// Bytes spell at most one class.
pub fn one_class()
    ensures { (bytes : List ℕ) (one other : AnyClass) → SpellsClass bytes one → SpellsClass bytes other → one ≡ other }
{}

/// What some bytes spell is spelled by those that have nothing to skip, and by none that are fewer.
pub fn canonical_bytes()
    ensures spelled { (class : AnyClass) → IsWellFormed class → SpellsClass (class_bytes class) class }
    ensures shortest { (class : AnyClass) (bytes : List ℕ) → SpellsClass bytes class
        → length (class_bytes class) ≤ length bytes }
{}

/// The name of an attribute has its least index: where a text stands in a pool, it stands at that one, and no index at
/// which it stands is less.
pub fn least_name()
    ensures { (pool : List AnyConstant) (name : List ℕ) (index : ℕ) → text_at pool index ≡ Some name
        → (text_at pool (least_index pool name) ≡ Some name) × (least_index pool name ≤ index) }
{}
