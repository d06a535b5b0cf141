//! The machine's run, over the roots of a running machine and any store of objects: turns, the start, and the run.
//!
//! `run` promises that so many turns were made, that what is kept at their end stands for the machine's state after as many steps, that just what
//! these steps print went out, and why it ended (`Running` in `specs/`). `start` promises that what is kept of new roots and an empty store is the
//! start of the machine (`Starting`). `run` asks of a store that it allows the references of each state that may come (`Coming` of `cb_act`), and
//! of one of fixed size that serials are left for all that its steps may place; `start` that it allows those of what is there at the start.
//!
//! A turn (`Turning` of `cb_act`) makes room for what the next step places, by the store's own rule, makes the step, and collects where that
//! calls `System.gc`. An instruction is done by `act` of `cb_act`, which typed states of a linked program allow (`typed_states_act`), or in a
//! turn of its own: an exception is thrown or unwinds, an object or an array is made (`Making`), arrays of several dimensions are (`Nested`), a
//! class begins or goes on to be initialised (`Initials`), a switch is resolved, a native is performed (`Performing`, `Answering`, `Printing`,
//! `Reading`). `Fit` says what a linked program says of what they place.
#![tactic(auto)]

mod answer_turns;
mod arguments;
mod beginning;
mod class_loads;
mod copy_turns;
mod divide_turns;
mod end;
mod entry_turns;
mod enum_turns;
mod exit_turns;
mod failed_turns;
mod frame_turns;
mod gc_turns;
mod idle;
mod init_turns;
mod joined_turns;
mod linked;
mod load_turns;
mod loading;
mod making;
mod making_law;
mod native_turns;
mod need_sites;
mod need_turns;
mod needed_turns;
mod nested_turns;
mod numbers_only;
mod parent_turns;
mod perform_turns;
mod printing;
mod quick_turns;
mod read_turns;
mod running;
mod starting;
mod stop;
mod stopping;
mod string_text;
mod switch_turns;
mod text_slots;
mod text_statics;
mod text_turns;
mod texts;
mod throwing;
mod together;
mod turn;
mod turning;
mod turns;
mod typed_law;
mod unwind_turns;
mod wrapped_turns;

pub use beginning::begin_turn;
pub use end::End;
pub use init_turns::{fails_next, init_turn};
pub use linked::linked_programs_fit;
pub use making::{make_array_turn, make_object_turn};
pub use making_law::making_as_said;
pub use running::run;
pub use starting::{linked_programs_start, make_roots, start, starts_stand};
pub use stop::Stop;
pub use switch_turns::switch_turn;
pub use texts::{exceptions_are_told, exceptions_say_their_text, write_exception};
pub use throwing::throw_turn;
pub use turning::act_turn;
pub use typed_law::typed_states_act;
pub use unwind_turns::unwind_turn;
