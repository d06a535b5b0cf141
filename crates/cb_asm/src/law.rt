// Laws of the format.
ghost use Rattle.std.specs.Prelude.{◌≡◌, ℕ, List};
ghost use Rattle.cb_asm_record.specs.Grammar.{Assembles};
ghost use Rattle.cb_classfile.specs.declared.class.ClassFile.{ClassFile as AnyClass};

/// A text has one record at most.
pub fn one_record()
    ensures { (text : List ℕ) (one other : AnyClass) → Assembles text one → Assembles text other → one ≡ other }
{}
