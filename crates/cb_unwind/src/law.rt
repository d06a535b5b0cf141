// What is left here has to do with the machine's step.
ghost use Rattle.std.specs.Prelude.{◌≡◌, ◌+◌, ℕ, List, [], ◌∷◌, false, length, option_and_then, option_map, true, Some, if◌then◌else◌};
ghost use Rattle.cb_heap.specs.Reading.{read_roots};
ghost use Rattle.cb_heap.specs.Shaped.{new_object};
ghost use Rattle.cb_link.specs.Program.{Linked};
ghost use Rattle.cb_machine.specs.Initialising.{begun_upon, initialising};
ghost use Rattle.cb_machine.specs.Machine.{Machine, kind_of_site};
ghost use Rattle.cb_machine.specs.Plans.{Plan, asked, leaving, made, object_of};
ghost use Rattle.cb_machine.specs.Sites.{exception_in_initializer, stack_overflow};
ghost use Rattle.cb_machine.specs.Strings.{constant_string};
ghost use Rattle.cb_machine.specs.Throwing.{exception_contents, throws};
ghost use Rattle.cb_machine.specs.Unwinding.{unwinding};
ghost use Rattle.cb_plain.specs.Depth.{has_room};
ghost use Rattle.cb_plain.specs.declared.shape.Shape.{Shape};
ghost use Rattle.cb_plain.specs.State.{Frame, Initialising, Roots, State, words_of};
ghost use Rattle.cb_plain.specs.Updates.{with_roots};
ghost use Rattle.cb_unwind.specs.Begun.{NumbersOnly, begun};
ghost use Rattle.cb_unwind.specs.Initialised.{NumbersNext, initialised};
ghost use Rattle.cb_unwind.specs.Steps.{init_plan, unwound_plan, view_of, with_view};
ghost use Rattle.cb_unwind.specs.Strings.{with_constant};
ghost use Rattle.cb_unwind.specs.Unwound.{exception_size, unwound, wraps};

/// A class whose static fields' constants are numbers begins to be initialised upon the frames that stand, or there is no room for its
/// frame.
pub fn beginning_as_said()
    ensures { (machine : Machine) (state : State) (class : ℕ) → NumbersOnly machine.program class
        → begun_upon machine state state.roots.frames class
        ≡ (if has_room machine.frames state.roots.frames 0
        then leaving (with_roots state (begun machine.program class state.roots))
        else throws machine state stack_overflow) }
{}

/// Reading goes through it, and room for a frame is the same when roots are read.
pub fn beginning_is_read()
    ensures begun { (index : ℕ → ℕ) (held : Roots) (program : Linked) (class : ℕ)
        → begun program class (read_roots index held)
        ≡ read_roots index (begun program class held) }
    ensures room { (index : ℕ → ℕ) (held : Roots) (limit slots : ℕ)
        → has_room limit (read_roots index held).frames slots ≡ has_room limit held.frames slots }
{}

/// The step of an initialisation that stands on top leaves just what is left of the roots, or throws an exception of the machine.
pub fn initialising_as_said()
    ensures { (machine : Machine) (state : State) (class place : ℕ) (below : List Frame)
        → state.roots.frames ≡ Initialising class place ∷ below
        → NumbersNext machine.program state.roots
        → initialising machine state below class place
        ≡ option_map (init_plan machine state) (initialised machine.program machine.frames
        state.roots) }
{}

/// Reading goes through it.
pub fn initialising_is_read()
    ensures { (index : ℕ → ℕ) (held : Roots) (program : Linked) (limit : ℕ)
        → initialised program limit (read_roots index held)
        ≡ option_map (λ gone. (gone.0, read_roots index gone.1))
        (initialised program limit held) }
{}

/// The step of a pending exception leaves just what is left of roots and objects. Where it wraps the exception it asks for the room of one
/// object.
pub fn unwinding_as_said()
    ensures left { (machine : Machine) (state : State) (shapes : List Shape)
        → wraps machine.program (view_of state) ≡ false
        → unwinding machine state ≡ option_and_then (unwound_plan state)
        (unwound machine.program shapes (view_of state)) }
    ensures wrapped { (machine : Machine) (state : State) (shapes : List Shape)
        → wraps machine.program (view_of state) ≡ true
        → new_object shapes exception_in_initializer (kind_of_site machine.program
        exception_in_initializer) exception_size
        ≡ object_of exception_in_initializer (kind_of_site machine.program
        exception_in_initializer) (exception_contents 0 0)
        → option_map made (unwinding machine state)
        ≡ option_map (λ past. with_view state past.1) (unwound machine.program shapes
        (view_of state)) }
    ensures asked { (machine : Machine) (state : State)
        → wraps machine.program (view_of state) ≡ true
        → option_map asked (unwinding machine state)
        ≡ Some (record { site = exception_in_initializer; words = words_of exception_size } ∷ []) }
{}

/// What a plan makes when it places the object of a text of the program, or takes the one that is there, is what was there with just that
/// object, and its serial.
pub fn strings_as_said()
    ensures made { (machine : Machine) (text : ℕ) (plan : Plan)
        → plan.next ≡ length (made plan).objects + 1
        → made (constant_string machine text plan).plan
        ≡ with_view (made plan) (with_constant machine.program text (view_of (made plan))).1 }
    ensures serial { (machine : Machine) (text : ℕ) (plan : Plan)
        → plan.next ≡ length (made plan).objects + 1
        → (constant_string machine text plan).serial
        ≡ (with_constant machine.program text (view_of (made plan))).0 }
{}
