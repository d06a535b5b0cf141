//! Laws over the definitions of the verifier and of the machine: a program that is linked and verified never gets stuck. There is no code.
//!
//! `specs/` says in this order: of which kinds objects are, and what a kind holds (`Kinds`, `Order`, `ClassNames`); values and words by the
//! verifier's types (`Held`); objects (`Heap`); frames (`Frames`); states, with an input of bytes (`States`); what typing says of one
//! instruction and of a method's beginning (`Flows`, `Beginning`); that a typed state has a next one, which is typed too (`Advancing`); and
//! what is asked of a program for that: at which sites the objects stand that the machine places, and of how many words they are
//! (`Placed`), what its exceptions and strings are (`Throwing`, `Causes`, `Strings`), what instructions name and make (`Naming`, `Ready`,
//! `Making`, `Calling`), what stands where a native is called, what it takes and gives, and what it asks of the library (`Natives`,
//! `Signatures`, `Performing`), which method a call runs and what it is given (`Given`), and what the initialisation of classes runs
//! (`Initialisers`).
//! `Loaded` and `Linked` say what loading and linking ensure of a program, and `Sound` all that then holds of one that is typed. What a
//! program may ask of a typed state that runs the machine step by step is in `Room` and `Words`.
//!
//! The laws on programs are in `src/programs.rt`, those on next states in `next_states.rt` and, at calls of natives, `natives.rt`, and what a
//! program may ask in `room.rt`, `words.rt` and `kept.rt`. The last says that typing asks nothing of objects that aren't kept: of a typed
//! state what is kept is typed too, where it names nothing else (`kept_states_are_typed`).
//!
//! In a program that is linked and typed a typed state whose run goes on has a next state, which is typed too, if a native that it calls
//! has one (`linked_programs_advance`), and natives have one (`natives_advance`). So each typed state whose run goes on has a next one
//! (`states_advance`); and the state with which a run begins is typed, so a run never gets stuck (`runs_advance`).
#![tactic(auto)]

mod kept;
mod natives;
mod next_states;
mod programs;
mod room;
mod words;

pub use kept::{kept_states_are_typed, typed_states_are_closed, words_name_objects};
pub use natives::{
    answer_natives_advance, arguments_are_given, array_natives_advance, box_natives_advance,
    enum_natives_advance, natives_advance, number_natives_advance, outside_natives_advance,
    own_field_natives_advance, strings_are_given, text_natives_advance,
};
pub use next_states::{
    arrays_made_advance, beginning_advances, constants_advance, constructor_calls_advance,
    division_keeps_types, frames_advance, initialisation_begins, initialising_advances,
    interface_calls_advance, linked_objects_advance, linked_programs_advance,
    linked_special_calls_advance, linked_static_calls_advance, linked_unwinding_advances,
    new_advances, objects_advance, returns_advance, runs_advance, special_calls_advance,
    start_is_typed, states_advance, static_calls_advance, statics_advance, throw_advances,
    throwing_keeps_types, unwinding_advances, virtual_calls_advance,
};
pub use programs::{
    arrays_hold_elements, begins, causes_are_kept, classes_go_above, classes_own_kinds,
    exceptions_are_thrown, flows, instructions_name_classes, instructions_name_fields,
    instructions_name_kinds, instructions_name_statics, kinds_hold_on, kinds_hold_own,
    kinds_hold_through, linked_has_constants, linked_has_initialisers, linked_has_main,
    linked_has_natives, linked_has_start, linked_is_sound, linked_programs, linking_links,
    spelled_rises, well_formed_code, whole_has_sites, whole_has_texts,
};
pub use room::{
    arguments_fit, callers_fit, catchers_fit, caught_fits, covered_frames_fit, entered_fits,
    frames_fit, pushes_fit, returns_fit, shuffles_fit, standing_frames_fit, waiting_frames_fit,
};
pub use words::{
    arrays_measured, elements_read, elements_written, fields_read, fields_written,
    references_are_asked, references_are_read, references_are_written, statics_read,
    statics_written,
};
