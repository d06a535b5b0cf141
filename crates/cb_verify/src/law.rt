// Small methods, and the first place of each that fails.
ghost use Rattle.std.specs.Prelude.{◌≡◌, [], ◌∷◌, Some, None};
ghost use Rattle.cb_insn.specs.declared.insn.Operand.TheVariants as operands;
ghost use Rattle.cb_insn.specs.declared.opcode.TheConstants as opcodes;
ghost use Rattle.cb_classfile.specs.declared.map_type.MapType.TheVariants as types;
ghost use Rattle.cb_verify.specs.Examples.{
  calls_another,
  duplicates,
  frame,
  handled,
  insn,
  int_for_reference,
  leaves_long,
  looping,
  makes,
  overwrites,
  plain,
  returns_at_once,
  switches,
  without_frame,
};
ghost use Rattle.cb_verify.specs.Typed.{first_failing};

/// What is typed of branches, loops and switches: a frame stands at each target, each target's frame is arrived at, and each frame
/// stands at an instruction.
pub fn small_branches()
    ensures target_without_frame { first_failing without_frame ≡ Some 0 }
    ensures int_for_reference { first_failing int_for_reference ≡ Some 1 }
    ensures framed { first_failing (looping (frame 252 2 (types.Integer ∷ []) [] ∷ [])) ≡ None }
    ensures forgets { first_failing (looping (frame 2 2 [] [] ∷ [])) ≡ Some 2 }
    ensures takes_off { first_failing (looping (frame 250 2 [] [] ∷ [])) ≡ Some 1 }
    ensures asks_for_more { first_failing (looping (frame 252 2 (types.Long ∷ []) [] ∷ [])) ≡ Some 1 }
    ensures at_the_start { first_failing (looping (frame 252 0 (types.Integer ∷ []) [] ∷ frame 1 1 [] [] ∷ [])) ≡ Some 0 }
    ensures at_no_instruction { first_failing (looping (frame 252 2 (types.Integer ∷ []) [] ∷ frame 0 0 [] [] ∷ [])) ≡ Some 3 }
    ensures switch { first_failing (switches (frame 251 24 [] [] ∷ frame 0 0 [] [] ∷ [])) ≡ None }
    ensures switch_target { first_failing (switches (frame 251 24 [] [] ∷ frame 252 0 (types.Integer ∷ []) [] ∷ [])) ≡ Some 1 }
{}

/// What is typed of handlers, which take the locals before each instruction that they cover.
pub fn small_handlers()
    ensures takes_nothing { first_failing (handled (types.Top ∷ [])) ≡ None }
    ensures takes_an_int { first_failing (handled (types.Integer ∷ [])) ≡ Some 0 }
{}

/// What is typed of operands: words of the stack, longs in two local variables, and longs on a stack of which less is known.
pub fn small_operands()
    ensures duplicated { first_failing (duplicates 4) ≡ None }
    ensures too_high { first_failing (duplicates 3) ≡ Some 2 }
    ensures overwritten { first_failing (overwrites opcodes.LLOAD_0) ≡ Some 4 }
    ensures first_half { first_failing (overwrites opcodes.ILOAD_0) ≡ Some 4 }
    ensures as_long { first_failing (leaves_long (types.Long ∷ [])) ≡ None }
    ensures as_two_words { first_failing (leaves_long (types.Top ∷ types.Top ∷ [])) ≡ None }
    ensures as_one_word { first_failing (leaves_long (types.Top ∷ [])) ≡ Some 1 }
{}

/// What is typed of objects that aren't ready: a constructor calls another before it ends, and each object is made ready once.
pub fn small_constructors()
    ensures of_its_class { first_failing (calls_another 8) ≡ None }
    ensures of_the_superclass { first_failing (calls_another 11) ≡ None }
    ensures of_another_class { first_failing (calls_another 12) ≡ Some 1 }
    ensures returns_at_once { first_failing returns_at_once ≡ Some 0 }
    ensures stored { first_failing (makes (plain 7 opcodes.ASTORE_0 ∷ plain 8 opcodes.RETURN ∷ [])) ≡ None }
    ensures twice { first_failing (makes (insn 7 opcodes.INVOKESPECIAL (operands.Pool 8) ∷ plain 10 opcodes.RETURN ∷ [])) ≡ Some 7 }
{}
