// What effects on the roots have to do with the machine's step.
ghost use Rattle.std.specs.Prelude.{◌≡◌, ℕ, ℤ, Bool, Option, false, option_map, slice_get, true, List, ◌∷◌, length, negsuc, pos, replicate, None, Some};
ghost use Rattle.std.specs.List.{find};
ghost use Rattle.cb_classfile.specs.declared.handler.Handler.{Handler};
ghost use Rattle.cb_frames.specs.Tops.{left, pushed};
ghost use Rattle.cb_insn.specs.declared.insn.Operand.{Operand};
ghost use Rattle.cb_insn.specs.declared.insn.Operand.TheVariants as operands;
ghost use Rattle.cb_machine.specs.Branching.{branches, switches};
ghost use Rattle.cb_machine.specs.Calling.{asked_sorts, invokes_static, returns};
ghost use Rattle.cb_machine.specs.Computing.{computes, loads_constant, loads_null, shuffles};
ghost use Rattle.cb_kinds.specs.declared.basic.Basic.{Basic};
ghost use Rattle.cb_classfile.specs.declared.body.Body.{Body};
ghost use Rattle.cb_classfile.specs.declared.method.Method.{Method};
ghost use Rattle.cb_heap.specs.Shaped.{new_object};
ghost use Rattle.cb_link.specs.Calls.{class_of_kind};
ghost use Rattle.cb_link.specs.Numbers.{Numbered};
ghost use Rattle.cb_link.specs.Program.{Linked};
ghost use Rattle.cb_link.specs.Slots.{field_basic, static_basic};
ghost use Rattle.cb_link.specs.declared.named.Named.TheVariants as meanings;
ghost use Rattle.cb_machine.specs.Arrays.{fits_element, loads_element, measures, stores_element, stores_reference};
ghost use Rattle.cb_machine.specs.Fields.{gets_field, gets_static_field, puts_field, puts_static_field};
ghost use Rattle.cb_machine.specs.Locals.{increases, loads, stores};
ghost use Rattle.cb_machine.specs.Creating.{blank_element, blank_fields, makes_arrays, makes_object, site_number};
ghost use Rattle.cb_machine.specs.Sites.{negative_size};
ghost use Rattle.cb_plain.specs.declared.value.Value.TheVariants.{Int};
ghost use Rattle.cb_machine.specs.Machine.{Machine, class_declaring, kind_of_site, method_numbered};
ghost use Rattle.cb_machine.specs.Plans.{leaving, made, object_of};
ghost use Rattle.cb_machine.specs.Unwinding.{takes, unwinding};
ghost use Rattle.cb_link.specs.Named.{handlers_at};
ghost use Rattle.cb_machine.specs.Standing.{Now, named_here, taken};
ghost use Rattle.cb_machine.specs.Steps.{done};
ghost use Rattle.cb_machine.specs.Testing.{asks_kind, casts, throws_object};
ghost use Rattle.cb_machine.specs.Throwing.{exception_contents, throws};
ghost use Rattle.cb_shapes.specs.Sorts.{sort_of_elements};
ghost use Rattle.cb_shapes.specs.declared.action.Action.{Action};
ghost use Rattle.cb_shapes.specs.declared.elements.Elements.{Elements};
ghost use Rattle.cb_shapes.specs.declared.computation.Computation.{Computation};
ghost use Rattle.cb_shapes.specs.declared.shuffle.Shuffle.{Shuffle};
ghost use Rattle.cb_shapes.specs.declared.sort.Sort.{Sort};
ghost use Rattle.cb_shapes.specs.declared.test.Condition.{Condition};
ghost use Rattle.cb_heap.specs.Reading.{read_roots};
ghost use Rattle.cb_machine.specs.Values.{null};
ghost use Rattle.cb_plain.specs.declared.value.Value.{Value};
ghost use Rattle.cb_plain.specs.declared.shape.Shape.{Shape};
ghost use Rattle.cb_plain.specs.State.{Frame, MethodFrame, Object, OfMethod, Roots, State};
ghost use Rattle.cb_plain.specs.Updates.{object_at, with_roots};
ghost use Rattle.cb_act.specs.Unwound.{caught};
ghost use Rattle.cb_act.specs.Effects.{behind_computation, behind_increase, behind_load, behind_shuffle, behind_store, behind_test};
ghost use Rattle.cb_act.specs.Effects.{compares_references, gave, told};
ghost use Rattle.cb_act.specs.Classes.{behind_cast, behind_instance, behind_throw, fits_serial};
ghost use Rattle.cb_act.specs.Framing.{frame_left, frame_plan, is_plain, read_left};
ghost use Rattle.cb_act.specs.Going.{behind_get_static, behind_put_static, behind_return, behind_switch, is_ready};
ghost use Rattle.cb_act.specs.Objects.{behind_get_field, behind_length, behind_load_element, behind_put_field};
ghost use Rattle.cb_act.specs.Objects.{behind_store_element, behind_store_reference};
ghost use Rattle.cb_act.specs.Placing.{at_place, exception_size, made_array, made_object, thrown, with_view};
ghost use Rattle.cb_act.specs.Steps.{FitsArray, HasElements, StandsBefore, computes_to, entered_to, goes_as, left_to};
ghost use Rattle.cb_act.specs.Steps.{pends_to, returns_as, steps_to, tests_to, view_of};

/// The step of a machine that stands at an instruction leaves of the roots just what its effect says, at the next place or where a branch
/// leads; and there is none where the effect is none.
pub fn effects_as_said()
    ensures computed { (now : Now) (pc : ℕ) (computation : Computation) → StandsBefore now pc
        → computes now computation ≡ computes_to now pc (gave computation now.state.roots)
        (behind_computation computation now.state.roots) }
    ensures loaded { (now : Now) (pc : ℕ) (sort : Sort) (local : ℕ) → StandsBefore now pc
        → loads now sort local ≡ steps_to now pc (behind_load sort local now.state.roots) }
    ensures stored { (now : Now) (pc : ℕ) (sort : Sort) (local : ℕ) → StandsBefore now pc
        → stores now sort local ≡ steps_to now pc (behind_store sort local now.state.roots) }
    ensures increased { (now : Now) (pc local : ℕ) (by : ℤ) → StandsBefore now pc
        → increases now local by ≡ steps_to now pc (behind_increase local by now.state.roots) }
    ensures tested { (now : Now) (pc : ℕ) (condition : Condition) (target : ℕ) → StandsBefore now pc
        → branches now condition (operands.Branch target)
        ≡ tests_to now pc target (told condition now.state.roots)
        (behind_test condition now.state.roots) }
    ensures shuffled { (now : Now) (pc : ℕ) (shuffle : Shuffle) → StandsBefore now pc
        → shuffles now shuffle ≡ steps_to now pc (behind_shuffle shuffle now.state.roots) }
{}

/// Reading goes through effects on the topmost frame: what is left of roots that are read is what is left of the roots, read. Two
/// references are for a store to compare.
pub fn effects_are_read()
    ensures computed { (index : ℕ → ℕ) (held : Roots) (computation : Computation)
        → behind_computation computation (read_roots index held)
        ≡ option_map (read_roots index) (behind_computation computation held) }
    ensures gave { (index : ℕ → ℕ) (held : Roots) (computation : Computation)
        → gave computation (read_roots index held) ≡ gave computation held }
    ensures loaded { (index : ℕ → ℕ) (held : Roots) (sort : Sort) (local : ℕ)
        → behind_load sort local (read_roots index held)
        ≡ option_map (read_roots index) (behind_load sort local held) }
    ensures stored { (index : ℕ → ℕ) (held : Roots) (sort : Sort) (local : ℕ)
        → behind_store sort local (read_roots index held)
        ≡ option_map (read_roots index) (behind_store sort local held) }
    ensures increased { (index : ℕ → ℕ) (held : Roots) (local : ℕ) (by : ℤ)
        → behind_increase local by (read_roots index held)
        ≡ option_map (read_roots index) (behind_increase local by held) }
    ensures shuffled { (index : ℕ → ℕ) (held : Roots) (shuffle : Shuffle)
        → behind_shuffle shuffle (read_roots index held)
        ≡ option_map (read_roots index) (behind_shuffle shuffle held) }
    ensures tested { (index : ℕ → ℕ) (held : Roots) (condition : Condition)
        → compares_references condition ≡ false
        → behind_test condition (read_roots index held)
        ≡ option_map (read_roots index) (behind_test condition held) }
    ensures told { (index : ℕ → ℕ) (held : Roots) (condition : Condition)
        → compares_references condition ≡ false
        → told condition (read_roots index held) ≡ told condition held }
{}

/// The step of a machine that stands at an instruction on objects leaves just what is left of roots and objects, or throws that exception;
/// and there is none where nothing is left.
pub fn objects_as_said()
    ensures got { (now : Now) (pc class slot : ℕ) (basic : Basic) → StandsBefore now pc
        → named_here now ≡ meanings.Field class slot → field_basic now.machine.program class slot
        ≡ Some basic
        → gets_field now ≡ left_to now pc (behind_get_field slot basic (view_of now.state)) }
    ensures put { (now : Now) (pc class slot : ℕ) (basic : Basic) → StandsBefore now pc
        → named_here now ≡ meanings.Field class slot → field_basic now.machine.program class slot
        ≡ Some basic
        → puts_field now ≡ left_to now pc (behind_put_field slot basic (view_of now.state)) }
    ensures measured { (now : Now) (pc : ℕ) → StandsBefore now pc
        → measures now ≡ left_to now pc (behind_length (view_of now.state)) }
    ensures read { (now : Now) (pc : ℕ) (basic : Basic) → StandsBefore now pc
        → HasElements now 1 basic
        → loads_element now ≡ left_to now pc (behind_load_element basic (view_of now.state)) }
    ensures written { (now : Now) (pc : ℕ) (elements : Elements) (basic : Basic)
        → StandsBefore now pc → HasElements now 2 basic
        → stores_element now elements ≡ left_to now pc (behind_store_element
        (sort_of_elements elements) basic (view_of now.state)) }
    ensures referred { (now : Now) (pc : ℕ) (fits : Bool) → StandsBefore now pc → FitsArray now fits
        → stores_reference now ≡ left_to now pc (behind_store_reference fits (view_of now.state)) }
{}

/// The step of a machine that stands at a constant that is null or a number, at an instruction on a static field of a class that may be
/// used, at a switch or at a return leaves just what is left of the roots; and there is none where nothing is left.
pub fn going_as_said()
    ensures null { (now : Now) (pc : ℕ) → StandsBefore now pc → loads_null now
        ≡ steps_to now pc (Some (pushed now.state.roots null)) }
    ensures whole { (now : Now) (pc : ℕ) (value : Value) → StandsBefore now pc → named_here now
        ≡ meanings.Whole value
        → loads_constant now ≡ steps_to now pc (Some (pushed now.state.roots value)) }
    ensures got { (now : Now) (pc class slot : ℕ) → StandsBefore now pc → named_here now
        ≡ meanings.Static class slot
        → is_ready (slice_get now.state.roots.classes class) ≡ true
        → gets_static_field now ≡ steps_to now pc (behind_get_static slot now.state.roots) }
    ensures put { (now : Now) (pc class slot : ℕ) (basic : Basic) → StandsBefore now pc
        → named_here now ≡ meanings.Static class slot
        → is_ready (slice_get now.state.roots.classes class) ≡ true
        → static_basic now.machine.program slot ≡ Some basic
        → puts_static_field now ≡ steps_to now pc (behind_put_static slot basic now.state.roots) }
    ensures switched { (now : Now) (pc : ℕ) (operand : Operand) → StandsBefore now pc
        → switches now operand ≡ goes_as now (behind_switch operand now.state.roots) }
    ensures returned { (now : Now) (pc : ℕ) (sort : Option Sort) → StandsBefore now pc
        → returns now sort ≡ returns_as now
        (behind_return now.machine.program sort now.state.roots) }
{}

/// Reading goes through them.
pub fn going_is_read()
    ensures got { (index : ℕ → ℕ) (held : Roots) (slot : ℕ)
        → behind_get_static slot (read_roots index held) ≡ option_map (read_roots index)
        (behind_get_static slot held) }
    ensures put { (index : ℕ → ℕ) (held : Roots) (slot : ℕ) (basic : Basic)
        → behind_put_static slot basic (read_roots index held)
        ≡ option_map (read_roots index) (behind_put_static slot basic held) }
    ensures switched { (index : ℕ → ℕ) (held : Roots) (operand : Operand)
        → behind_switch operand (read_roots index held)
        ≡ option_map (λ gone. (gone.0, read_roots index gone.1)) (behind_switch operand held) }
    ensures returned { (index : ℕ → ℕ) (held : Roots) (program : Linked) (sort : Option Sort)
        → behind_return program sort (read_roots index held)
        ≡ option_map (read_roots index) (behind_return program sort held) }
{}

/// The step that throws an exception of the machine without a message leaves just what is left where it is placed, and so does that of a
/// `new` of a class that may be used; an invokestatic of such a class enters a method with code, or there is no room for its frame.
pub fn placing_as_said()
    ensures thrown { (machine : Machine) (state : State) (site : ℕ) (shapes : List Shape)
        → new_object shapes site (kind_of_site machine.program site) exception_size
        ≡ object_of site (kind_of_site machine.program site) (exception_contents 0 0)
        → made (throws machine state site) ≡ with_view state (thrown shapes site
        (kind_of_site machine.program site) (view_of state)) }
    ensures made { (now : Now) (pc kind class site size : ℕ) (shapes : List Shape)
        → StandsBefore now pc
        → named_here now ≡ meanings.Kind kind → class_of_kind now.machine.program kind ≡ Some class
        → is_ready (slice_get now.state.roots.classes class) ≡ true
        → site_number now.machine.program now.frame.method now.frame.pc 0 ≡ Some site
        → new_object shapes site (kind_of_site now.machine.program site) size
        ≡ object_of site (kind_of_site now.machine.program site) (blank_fields now.machine.program
        (kind_of_site now.machine.program site))
        → option_map made (makes_object now)
        ≡ Some (with_view now.state (at_place (made_object shapes site
        (kind_of_site now.machine.program site) size (view_of now.state)) pc)) }
    ensures entered { (now : Now) (pc class method : ℕ) (numbered : Numbered Method) (body : Body)
        (held rest : List Value)
        → StandsBefore now pc → named_here now ≡ meanings.Method method
        → class_declaring now.machine.program method ≡ Some class
        → is_ready (slice_get now.state.roots.classes class) ≡ true
        → taken (asked_sorts now.machine.program method) now.frame.stack ≡ Some (held, rest)
        → method_numbered now.machine.program method ≡ Some numbered → numbered.member.body
        ≡ Some body
        → invokes_static now ≡ Some (entered_to now method (length held) body) }
    ensures array { (now : Now) (pc site size : ℕ) (rest : List Value) (shapes : List Shape)
        → StandsBefore now pc
        → now.frame.stack ≡ Int (pos size) ∷ rest
        → site_number now.machine.program now.frame.method now.frame.pc 0 ≡ Some site
        → new_object shapes site (kind_of_site now.machine.program site) size
        ≡ object_of site (kind_of_site now.machine.program site)
        (replicate size (blank_element now.machine.program (kind_of_site now.machine.program site)))
        → option_map made (makes_arrays now 1)
        ≡ Some (with_view now.state (at_place (made_array shapes site
        (kind_of_site now.machine.program site) size (view_of now.state)) pc)) }
    ensures negative { (now : Now) (pc below : ℕ) (rest : List Value) → StandsBefore now pc
        → now.frame.stack ≡ Int (negsuc below) ∷ rest
        → makes_arrays now 1 ≡ Some (throws now.machine now.state negative_size) }
{}

/// The step of a machine that stands at an instruction which changes the topmost frame alone, and compares no references, leaves just what
/// `frame_step` does; and reading goes through it.
pub fn frames_as_said()
    ensures done { (now : Now) (pc target : ℕ) (action : Action) → StandsBefore now pc
        → is_plain action ≡ true
        → done now (operands.Branch target) action ≡ frame_plan now
        (frame_left action pc target now.state.roots) }
    ensures read { (index : ℕ → ℕ) (held : Roots) (action : Action) (pc target : ℕ)
        → is_plain action ≡ true
        → frame_left action pc target (read_roots index held)
        ≡ option_map (read_left index) (frame_left action pc target held) }
{}

/// The step of a machine that stands at a `checkcast`, an `instanceof` or an `athrow` leaves just what is left of roots and objects, or
/// throws that exception; and whether a reference fits the elements of an array is what `fits` says.
pub fn classes_as_said()
    ensures cast { (now : Now) (pc kind : ℕ) → StandsBefore now pc → named_here now
        ≡ meanings.Kind kind
        → casts now ≡ left_to now pc (behind_cast now.machine.program kind (view_of now.state)) }
    ensures asked { (now : Now) (pc kind : ℕ) → StandsBefore now pc → named_here now
        ≡ meanings.Kind kind
        → asks_kind now ≡ left_to now pc (behind_instance now.machine.program kind
        (view_of now.state)) }
    ensures thrown { (now : Now) (pc : ℕ) → StandsBefore now pc
        → throws_object now ≡ pends_to now (behind_throw (view_of now.state)) }
    ensures fits { (now : Now) (element : Option Basic) (value : ℕ)
        → fits_element now element value
        ≡ fits_serial now.machine.program now.state.objects element value }
{}

/// The step of a machine in which an exception is pending, and a method's frame stands: no handler takes it, and the frame ends; or the
/// first that does goes on (JVMS §2.10).
pub fn unwinding_as_said()
    ensures passed { (machine : Machine) (state : State) (frame : MethodFrame) (below : List Frame)
        (object : Object)
        → state.roots.frames ≡ OfMethod frame ∷ below → object_at state state.roots.pending
        ≡ Some object
        → find (takes machine.program
        (class_declaring machine.program frame.method) frame.pc object.kind)
        (handlers_at machine.program frame.method) ≡ None
        → unwinding machine state ≡ Some (leaving (with_roots state (left state.roots))) }
    ensures caught { (machine : Machine) (state : State) (frame : MethodFrame) (below : List Frame)
        (object : Object)
        (handler : Handler)
        → state.roots.frames ≡ OfMethod frame ∷ below → object_at state state.roots.pending
        ≡ Some object
        → find (takes machine.program
        (class_declaring machine.program frame.method) frame.pc object.kind)
        (handlers_at machine.program frame.method) ≡ Some handler
        → unwinding machine state ≡ Some (leaving (with_roots state
        (caught handler.handler state.roots))) }
{}
