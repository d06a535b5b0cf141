//! What the library's natives do (Java SE 8 API, java.lang and java.io), over any store of objects.
//!
//! It promises that each native answers and leaves what the machine's call does. `answer` does those that give a number or nothing. Those that
//! place objects or change them are done in two calls, `plan_native`, which tells the room that they ask for, and `run_native`, once that room
//! was made. `find_constant` does `Enum.valueOf`, which may also ask for a class to be initialised. `plan_copy` tells what `System.arraycopy`
//! copies and throws, and `copy_planned` copies it. `read_byte` does `InputStream.read()`; `range_to_read` tells the range of
//! `read(byte[], int, int)`, and `read_into` reads into it.
//!
//! `specs/` says what is known of the arguments of each (`Given`), what one answers that places nothing but an exception (`Answers`), and what the
//! others ask for and perform (`Making`, and by group the files that begin so). A call that may write a reference asks that those of what it
//! leaves follow what sites allow (`Follows` of `cb_heap`, and `MayLeave`). No call takes memory but the store's.
#![tactic(auto)]

mod answering;
mod answers;
mod arguments;
mod array_natives;
mod array_ranges;
mod arrays;
mod box_answers;
mod boxes;
mod copies;
mod copy_placing;
mod copy_plans;
mod copying;
mod enums;
mod gives;
mod held;
mod input;
mod input_natives;
mod kept_entries;
mod kept_objects;
mod low_bits;
mod makes_texts;
mod making;
mod math_answers;
mod methods;
mod native_at;
mod number_boxes;
mod object_answers;
mod own;
mod own_appending;
mod own_arguments;
mod own_building;
mod own_change;
mod own_editing;
mod own_natives;
mod own_pieces;
mod own_placing;
mod own_ranges;
mod own_reading;
mod parsing;
mod pieces;
mod placing_texts;
mod range_copies;
mod reading;
mod scanning;
mod short_texts;
mod string_answers;
mod string_reading;
mod text_making;
mod text_of;
mod texts;
mod value_texts;
mod wrapping;
mod writing;

pub use answering::answer;
pub use answers::{Answer, Exception, Thrown};
pub use array_ranges::Ranges;
pub use copy_plans::{CopyPlan, copy_planned, plan_copy};
pub use enums::{EnumAnswer, find_constant};
pub use gives::gives_answer;
pub use input_natives::{ArrayRange, range_to_read, read_byte, read_into};
pub use making::{makes, plan_native, run_native};
pub use methods::native_of;
