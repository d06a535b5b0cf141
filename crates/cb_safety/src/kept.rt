// That references name objects, and what is kept of typed states.
ghost use Rattle.std.specs.List.{list_all};
ghost use Rattle.std.specs.Prelude.{Bool, IsTrue, List, Option};
ghost use Rattle.cb_heap.specs.Closed.{IsClosed, reference_in_word};
ghost use Rattle.cb_heap.specs.Kept.{is_held, keep};
ghost use Rattle.cb_heap.specs.StandsFor.{forget};
ghost use Rattle.cb_kinds.specs.declared.basic.Basic.{Basic};
ghost use Rattle.cb_link.specs.Program.{Linked};
ghost use Rattle.cb_plain.specs.State.{Content, Object, State};
ghost use Rattle.cb_plain.specs.Updates.{with_objects};
ghost use Rattle.cb_safety.specs.Held.{HasContent};
ghost use Rattle.cb_safety.specs.Kinds.{kinds_of};
ghost use Rattle.cb_safety.specs.States.{IsTypedState};

/// Each reference in the roots of a typed state, whether it runs or not, and in its objects is null or names an object that is there.
pub fn typed_states_are_closed()
    ensures { (program : Linked) (state : State) → IsTypedState program state
        → IsClosed (record { roots = state.roots; objects = state.objects }) }
{}

/// So does a reference in a word that is of its field's or element's type.
pub fn words_name_objects()
    ensures { (program : Linked) (objects : List (Option Object)) (basic : Basic)
        (content : Content)
        → HasContent program (kinds_of objects) basic content
        → IsTrue (list_all (is_held objects) (reference_in_word content)) }
{}

/// Of a typed state of which only some objects are kept, what is kept is typed where nothing that is kept names an object that isn't.
pub fn kept_states_are_typed()
    ensures { (program : Linked) (residents : List Bool) (state : State)
        → IsTypedState program state → IsClosed (forget residents state)
        → IsTypedState program (with_objects state (keep residents state.objects)) }
{}
