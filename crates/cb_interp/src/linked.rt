// What calls of this crate ask of a program, and each linked one has.
ghost use Rattle.std.specs.Prelude.{◌<◌, ℕ, length, List};
ghost use Rattle.cb_link.specs.Having.{site_kinds};
ghost use Rattle.cb_link.specs.Named.{IsThere, named};
ghost use Rattle.cb_link.specs.Program.{Linked};
ghost use Rattle.cb_machine.specs.Sites.{constant_characters};
ghost use Rattle.cb_natives.specs.Making.{MayMake};
ghost use Rattle.cb_natives.specs.MakingArrays.{MayHold};
ghost use Rattle.cb_plain.specs.declared.shape.Shape.{Shape};
ghost use Rattle.cb_safety.specs.Linked.{IsLinked};
ghost use Rattle.cb_safety.specs.Throwing.{AreThrown};
ghost use Rattle.cb_verify.specs.Typed.{IsTyped};
ghost use Rattle.cb_act.specs.Acting.{HasFewParameters, MarksNatives};
ghost use Rattle.cb_interp.specs.Fit.{ArraysFit, ExceptionsFit, ObjectsFit, ShapesOf, ThrowablesFit};
ghost use Rattle.cb_interp.specs.Loading.{MayPlace, MayPlaceClass};
ghost use Rattle.cb_interp.specs.TextStatics.{MayPlaceOwn};

use cb_safety::{exceptions_are_thrown, linked_has_natives, linked_is_sound, linked_programs};

/// The methods of a linked program have few parameters (JVMS §4.3.3), and those without code are performed exactly where they are marked
/// native. By the shapes of its kinds the exceptions of the machine, objects of classes and arrays have the words that the machine's step
/// gives them: an exception has a message, a cause and what was suppressed, each null at first.
pub fn linked_programs_fit()
    ensures few { (program : Linked) → IsLinked program → HasFewParameters program }
    ensures natives { (program : Linked) → IsLinked program → MarksNatives program }
    ensures objects { (program : Linked) (shapes : List Shape) → IsLinked program
        → ShapesOf program shapes → ObjectsFit program shapes }
    ensures arrays { (program : Linked) (shapes : List Shape) → IsLinked program
        → ShapesOf program shapes → ArraysFit program shapes }
    ensures thrown { (program : Linked) (shapes : List Shape) → IsLinked program → IsTyped program
        → ShapesOf program shapes → ExceptionsFit program shapes }
    ensures placed { (program : Linked) (shapes : List Shape) → IsLinked program → IsTyped program
        → ShapesOf program shapes → ThrowablesFit program shapes }
    ensures machine { (program : Linked) → IsLinked program → AreThrown program }
{
    linked_programs();
    exceptions_are_thrown();
    linked_has_natives();
}

/// What turns that load or place constants ask of a linked program. By the shapes of its kinds strings, their characters and class objects
/// have the words that the machine's step gives them, and texts are short (JVMS §4.4.7). What instructions name is there, and so is the
/// message of a division by zero.
pub(crate) fn linked_constants()
    ensures sites { (program : Linked) → IsLinked program → constant_characters < length
        (site_kinds program) }
    ensures texts { (program : Linked) (shapes : List Shape) → IsLinked program → IsTyped program
        → ShapesOf program shapes → (text : ℕ) → MayPlace program text }
    ensures own { (program : Linked) (shapes : List Shape) → IsLinked program → IsTyped program
        → ShapesOf program shapes → (class : ℕ) → MayPlaceOwn program class }
    ensures classes { (program : Linked) (shapes : List Shape) → IsLinked program → IsTyped program
        → ShapesOf program shapes → MayPlaceClass program }
    ensures there { (program : Linked) → IsLinked program → (method pc : ℕ) → IsThere program
        (named program method pc) }
    ensures message { (program : Linked) → IsLinked program → 0 < length program.constants }
{
    linked_programs();
    linked_is_sound();
    linked_has_natives();
}

/// What natives place has the words that they write, by the shapes of a linked program's kinds, and so has each copy that they make.
pub(crate) fn linked_makes()
    ensures makes { (program : Linked) (shapes : List Shape) → IsLinked program → IsTyped program
        → ShapesOf program shapes → MayMake program shapes }
    ensures holds { (program : Linked) (shapes : List Shape) → IsLinked program → IsTyped program
        → ShapesOf program shapes → MayHold program shapes }
{
    linked_programs();
    linked_has_natives();
}
