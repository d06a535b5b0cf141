// That classes are one program, or none for one reason.
ghost use Rattle.std.specs.Prelude.{◌≡◌, ℕ, List};
ghost use Rattle.cb_classfile.specs.declared.class.ClassFile.{ClassFile};
ghost use Rattle.cb_link.specs.Judging.{IsNoProgram, IsProgram};
ghost use Rattle.cb_link.specs.declared.refusal.Refusal.{Refusal};

/// Classes that were loaded are a program, or they are none for one reason.
pub fn one_judgement()
    ensures never_both { (classes : List ClassFile) (main : List ℕ) (method : ℕ) (refusal : Refusal)
        → IsProgram classes main method → IsNoProgram classes main refusal → ⊥ }
    ensures refusal { (classes : List ClassFile) (main : List ℕ) (one other : Refusal) → IsNoProgram classes main one
        → IsNoProgram classes main other → one ≡ other }
{}
