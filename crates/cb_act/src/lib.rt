//! What an instruction does, as a whole step over the roots of a running machine and any store of objects; and the laws that turns over a store come
//! to what is kept of the machine that never frees.
//!
//! `act` promises that an instruction is done as the machine's step, or that nothing has changed and it tells what has to be done in its place
//! (`Need`). `Acting` says what it leaves, `Here` what that is as a step of the machine, and `Suited` what it asks of roots and objects, which
//! typed states have. It is made of calls for each kind, and `specs/` says what each leaves, and `None` if what it takes isn't there: of the roots
//! `Effects`, `Framing` (those that change the topmost frame alone, as whole steps) and `Going` (switches, static fields, returns); of roots and
//! objects `Objects` (fields and elements), `Classes` (casts) and `Placing` (exceptions and new objects). `Steps` says what that has to do with the
//! machine's step. No call takes memory, and each takes constant time unless it says otherwise.
//!
//! Turns of a run are defined here too (`Turning`), since they hold over any store: room is made for what the next step places, by the store's
//! own rule, the step is made, and behind one that calls `System.gc` (`Sweeping`) all is collected. `Coming` says which states may come from one,
//! and when a store allows the references of all of them. `turns_stand` rests on what a step does to what is kept of a state (`Keeping`,
//! `Changing`, `Within`), at every instruction and native.
#![tactic(auto)]

mod acting;
mod acting_calls;
mod acting_frames;
mod acting_interfaces;
mod acting_law;
mod acting_objects;
mod arrays;
mod classes;
mod computing;
mod fields;
mod keeping;
mod law;
mod moving;
mod named;
mod natives;
mod need;
mod operands;
mod placing;
mod plain_steps;
mod references;
mod returning;
mod shuffling;
mod sites;
mod statics;
mod switching;
mod testing;
mod unwinding;
mod words;

pub use acting::{act, act_on_calls, act_on_data};
pub use acting_frames::is_computed;
pub use acting_law::acts_as_said;
pub use arrays::{array_length, load_element, store_element, store_reference};
pub use classes::{cast, fits, instance, throw_object};
pub use fields::{get_field, put_field};
pub use keeping::{
    calls_are_kept, frames_are_kept, initialisations_are_kept, keeping_goes_on, makings_are_kept,
    next_states_are_kept, objects_are_kept, steps_are_kept, turns_stand,
};
pub use law::{
    classes_as_said, effects_are_read, effects_as_said, frames_as_said, going_as_said,
    going_is_read, objects_as_said, placing_as_said, unwinding_as_said,
};
pub use natives::{natives_change, natives_within};
pub use need::Need;
pub use operands::{give_for, int_at, long_at, reference_at, take_one, take_two};
pub use placing::{make_array, make_object, throw};
pub use plain_steps::{Went, frame_step, plain_step, step_as};
pub use references::test_references;
pub use returning::give_back;
pub use sites::{NO_CLASS_DEFINITION, STACK_OVERFLOW};
pub use statics::{get_static, put_static};
pub use switching::switch;
pub use unwinding::catch;
pub use words::{kept_value, value_at};
