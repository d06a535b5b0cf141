// A step of what is kept of a state is what is kept of the step.
ghost use Rattle.std.specs.Prelude.{◌≡◌, ℕ, ℤ, Bool, List, length, Option, Some, option_map};
ghost use Rattle.cb_heap.specs.Closed.{IsClosed};
ghost use Rattle.cb_heap.specs.Kept.{keep, residents};
ghost use Rattle.cb_heap.specs.StandsFor.{StandsFor};
ghost use Rattle.cb_insn.specs.declared.insn.Operand.{Operand};
ghost use Rattle.cb_machine.specs.Arrays.{loads_element, measures};
ghost use Rattle.cb_machine.specs.Arrays.{stores_element, stores_reference};
ghost use Rattle.cb_machine.specs.Branching.{branches, switches};
ghost use Rattle.cb_machine.specs.Calling.{invokes_interface, invokes_special};
ghost use Rattle.cb_machine.specs.Calling.{invokes_static, invokes_virtual, returns};
ghost use Rattle.cb_machine.specs.Computing.{computes, loads_constant, loads_null, shuffles};
ghost use Rattle.cb_machine.specs.Creating.{makes_arrays, makes_object};
ghost use Rattle.cb_machine.specs.Fields.{gets_field, puts_field};
ghost use Rattle.cb_machine.specs.Fields.{gets_static_field, puts_static_field};
ghost use Rattle.cb_machine.specs.Initialising.{begun_upon, initialising};
ghost use Rattle.cb_machine.specs.Locals.{increases, loads, stores};
ghost use Rattle.cb_machine.specs.Machine.{Machine};
ghost use Rattle.cb_machine.specs.Plans.{Plan, made};
ghost use Rattle.cb_machine.specs.Standing.{Now};
ghost use Rattle.cb_machine.specs.Runs.{after};
ghost use Rattle.cb_machine.specs.Steps.{plan, step};
ghost use Rattle.cb_machine.specs.Testing.{asks_kind, casts, throws_object};
ghost use Rattle.cb_machine.specs.Unwinding.{unwinding};
ghost use Rattle.cb_plain.specs.State.{Frame, State};
ghost use Rattle.cb_shapes.specs.declared.computation.Computation.{Computation};
ghost use Rattle.cb_shapes.specs.declared.elements.Elements.{Elements};
ghost use Rattle.cb_shapes.specs.declared.shuffle.Shuffle.{Shuffle};
ghost use Rattle.cb_shapes.specs.declared.sort.Sort.{Sort};
ghost use Rattle.cb_shapes.specs.declared.test.Condition.{Condition};
ghost use Rattle.cb_act.specs.Keeping.{IsKeeping, Keeps, KeepsHere, KeepsPlan};
ghost use Rattle.cb_act.specs.Steps.{view_of};
ghost use Rattle.cb_act.specs.Turning.{Moment, StandsAt, Turns};
ghost use Rattle.cb_act.specs.Within.{IsWithin, Within};
ghost use Rattle.cb_act.specs.Keeping.{kept_after, kept_plan, kept_state, residents_behind};

use cb_heap::Store;

/// Instructions that look at frames alone, and constants: that it is told of each object whether it
/// is kept is enough.
pub fn frames_are_kept()
    ensures computed { (residents : List Bool) (now : Now) (computation : Computation)
        → length residents ≡ length now.state.objects → Keeps residents now
        (λ now. computes now computation) }
    ensures null { (residents : List Bool) (now : Now)
        → length residents ≡ length now.state.objects → Keeps residents now loads_null }
    ensures constant { (residents : List Bool) (now : Now)
        → length residents ≡ length now.state.objects → Keeps residents now loads_constant }
    ensures loaded { (residents : List Bool) (now : Now) (sort : Sort) (local : ℕ)
        → length residents ≡ length now.state.objects → Keeps residents now
        (λ now. loads now sort local) }
    ensures stored { (residents : List Bool) (now : Now) (sort : Sort) (local : ℕ)
        → length residents ≡ length now.state.objects → Keeps residents now
        (λ now. stores now sort local) }
    ensures increased { (residents : List Bool) (now : Now) (local : ℕ) (by : ℤ)
        → length residents ≡ length now.state.objects → Keeps residents now
        (λ now. increases now local by) }
    ensures shuffled { (residents : List Bool) (now : Now) (shuffle : Shuffle)
        → length residents ≡ length now.state.objects → Keeps residents now
        (λ now. shuffles now shuffle) }
    ensures tested { (residents : List Bool) (now : Now) (condition : Condition) (operand : Operand)
        → length residents ≡ length now.state.objects → Keeps residents now
        (λ now. branches now condition operand) }
    ensures switched { (residents : List Bool) (now : Now) (operand : Operand)
        → length residents ≡ length now.state.objects → Keeps residents now
        (λ now. switches now operand) }
    ensures returned { (residents : List Bool) (now : Now) (sort : Option Sort)
        → length residents ≡ length now.state.objects → Keeps residents now
        (λ now. returns now sort) }
{}

/// Classes that begin, and steps of an initialisation.
pub fn initialisations_are_kept()
    ensures begun { (residents : List Bool) (machine : Machine) (state : State)
        (frames : List Frame) (class : ℕ)
        → length residents ≡ length state.objects
        → begun_upon machine (kept_state residents state) frames class
        ≡ kept_plan residents (begun_upon machine state frames class) }
    ensures turned { (residents : List Bool) (machine : Machine) (state : State)
        (below : List Frame) (class place : ℕ)
        → length residents ≡ length state.objects
        → initialising machine (kept_state residents state) below class place
        ≡ option_map (kept_plan residents) (initialising machine state below class place) }
{}

/// Static fields, and objects and arrays that are made.
pub fn makings_are_kept()
    ensures got { (residents : List Bool) (now : Now)
        → length residents ≡ length now.state.objects → Keeps residents now gets_static_field }
    ensures put { (residents : List Bool) (now : Now)
        → length residents ≡ length now.state.objects → Keeps residents now puts_static_field }
    ensures made { (residents : List Bool) (now : Now)
        → length residents ≡ length now.state.objects → Keeps residents now makes_object }
    ensures arrays { (residents : List Bool) (now : Now) (dimensions : ℕ)
        → length residents ≡ length now.state.objects → Keeps residents now
        (λ now. makes_arrays now dimensions) }
{}

/// Instructions on objects: those that they look at are kept.
pub fn objects_are_kept()
    ensures got { (residents : List Bool) (now : Now) → KeepsHere residents now
        → Keeps residents now gets_field }
    ensures put { (residents : List Bool) (now : Now) → KeepsHere residents now
        → Keeps residents now puts_field }
    ensures read { (residents : List Bool) (now : Now) → KeepsHere residents now
        → Keeps residents now loads_element }
    ensures written { (residents : List Bool) (now : Now) (elements : Elements)
        → KeepsHere residents now → Keeps residents now (λ now. stores_element now elements) }
    ensures referred { (residents : List Bool) (now : Now) → KeepsHere residents now
        → Keeps residents now stores_reference }
    ensures measured { (residents : List Bool) (now : Now) → KeepsHere residents now
        → Keeps residents now measures }
    ensures cast { (residents : List Bool) (now : Now) → KeepsHere residents now
        → Keeps residents now casts }
    ensures asked { (residents : List Bool) (now : Now) → KeepsHere residents now
        → Keeps residents now asks_kind }
    ensures thrown { (residents : List Bool) (now : Now) → KeepsHere residents now
        → Keeps residents now throws_object }
{}

/// Calls, those of natives too.
pub fn calls_are_kept()
    ensures on_none { (residents : List Bool) (now : Now)
        → KeepsHere residents now → Keeps residents now invokes_static }
    ensures special { (residents : List Bool) (now : Now) (index : ℕ)
        → KeepsHere residents now → Keeps residents now (λ now. invokes_special now index) }
    ensures selected { (residents : List Bool) (now : Now)
        → KeepsHere residents now → Keeps residents now invokes_virtual }
    ensures of_interface { (residents : List Bool) (now : Now) (index : ℕ)
        → KeepsHere residents now → Keeps residents now (λ now. invokes_interface now index) }
{}

/// The effect on what is kept is what is kept of the effect, where nothing that is kept names an
/// object that isn't: a step whatever it does.
pub fn steps_are_kept()
    ensures unwound { (machine : Machine) (residents : List Bool) (state : State)
        → IsKeeping residents state
        → unwinding machine (kept_state residents state) ≡ option_map (kept_plan residents)
        (unwinding machine state) }
    ensures planned { (machine : Machine) (residents : List Bool) (state : State)
        → IsKeeping residents state → KeepsPlan machine residents state }
{}

/// The next state of what is kept is what is kept of the next state, with all that the step places;
/// and but for that the step leaves the objects that were there, so that what is kept is there.
pub fn next_states_are_kept()
    ensures counted { (machine : Machine) (state : State) (own : Plan)
        → plan machine state ≡ Some own → length own.left.objects
        ≡ length state.objects }
    ensures marked { (machine : Machine) (state : State) (own : Plan)
        → plan machine state ≡ Some own → residents own.left.objects
        ≡ residents state.objects }
    ensures there { (machine : Machine) (kept : List Bool) (state : State) (own : Plan)
        → length kept ≡ length state.objects
        → residents (keep kept state.objects) ≡ kept
        → plan machine state ≡ Some own
        → residents (keep (kept_after kept own) (made own).objects) ≡ kept_after kept own }
    ensures made { (residents : List Bool) (own : Plan) → length residents ≡ length own.left.objects
        → made (kept_plan residents own) ≡ kept_state (kept_after residents own) (made own) }
    ensures stepped { (machine : Machine) (residents : List Bool) (state : State)
        → IsKeeping residents state
        → step machine (kept_state residents state)
        ≡ option_map (kept_state (residents_behind residents (plan machine state)))
        (step machine state) }
{}

/// All references of a step pass a test where all of the state's do, and all that come next; so the
/// next state is keeping again, with all that the step places, where all its references name an
/// object, kept or not. What is kept stands for it.
pub fn keeping_goes_on()
    ensures passed { (ok : ℕ → Bool) (machine : Machine) (state : State) → IsWithin ok state
        → Within ok (plan machine state) }
    ensures again { (machine : Machine) (residents : List Bool) (state : State) (own : Plan)
        → IsKeeping residents state
        → plan machine state ≡ Some own → IsClosed (view_of (made own))
        → IsKeeping (kept_after residents own) (made own) }
    ensures stands { (machine : Machine) (kept : List Bool) (state : State) (own : Plan)
        → IsKeeping kept state
        → residents (keep kept state.objects) ≡ kept
        → plan machine state ≡ Some own → IsClosed (view_of (made own))
        → StandsFor (view_of (made (kept_plan kept own))) (made own) (kept_after kept own) }
{}

/// Turns of a run over what a store keeps, each with room made for what its step places, by whatever rule lets objects go that nothing
/// reaches, come to what is kept of the state to which as many steps of the machine that never frees come: roots are the same, what was
/// printed, and each object that is kept.
pub fn turns_stand<S: Store>()
    ensures { (machine : Machine) (steps : ℕ) (state : State)
        → ((count : ℕ) (own : Plan) → plan machine (after machine count state) ≡ Some own
        → IsClosed (view_of (made own)))
        → (first last : Moment S.Facts) → StandsAt first state
        → Turns S.rules machine steps first last → StandsAt last (after machine steps state) }
{}
