// Laws of the grammar and of faults.
ghost use Rattle.std.specs.Prelude.{◌≡◌, ◌<◌, ◌^◌, ◌⊎◌, ℕ, List, All, length};
ghost use Rattle.cb_insn.specs.declared.insn.Insn.{Insn};
ghost use Rattle.cb_insn.specs.Faults.{Fault, HasFault, HasBadTarget};
ghost use Rattle.cb_insn.specs.Grammar.{SpellsCode};

/// Bytes spell at most one code.
pub fn one_code()
    ensures { (bytes : List ℕ) (one other : List (ℕ × Insn))
        → SpellsCode one bytes → SpellsCode other bytes → one ≡ other }
{}

/// Faults say exactly why bytes spell no code. Of fewer bytes than 2^32 one of these holds: they spell some code, or
/// there is a fault at a place, or there is a place with a bad target. No two of these hold, there is one fault at one
/// place at most, and one place with a bad target.
pub fn code_or_fault()
    ensures some { (bytes : List ℕ) → All (λ byte. byte < 2 ^ 8) bytes → length bytes < 2 ^ 32
        → ((code : List (ℕ × Insn)) × SpellsCode code bytes)
        ⊎ (((pc : ℕ) × (fault : Fault) × HasFault bytes pc fault) ⊎ ((pc : ℕ) × HasBadTarget bytes pc)) }
    ensures no_fault_of_code { (bytes : List ℕ) (code : List (ℕ × Insn)) (pc : ℕ) (fault : Fault)
        → SpellsCode code bytes → ¬ HasFault bytes pc fault }
    ensures no_bad_target_of_code { (bytes : List ℕ) (code : List (ℕ × Insn)) (pc : ℕ)
        → SpellsCode code bytes → ¬ HasBadTarget bytes pc }
    ensures no_bad_target_beside_a_fault { (bytes : List ℕ) (pc other : ℕ) (fault : Fault)
        → HasFault bytes pc fault → ¬ HasBadTarget bytes other }
    ensures one_fault { (bytes : List ℕ) (pc other : ℕ) (one next : Fault)
        → HasFault bytes pc one → HasFault bytes other next → (pc ≡ other) × (one ≡ next) }
    ensures one_bad_target { (bytes : List ℕ) (pc other : ℕ)
        → HasBadTarget bytes pc → HasBadTarget bytes other → pc ≡ other }
{}
