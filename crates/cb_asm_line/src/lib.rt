//! The assembly format of class files: its lines.
//!
//! It promises that each line is read exactly from its words and written as it is read. `specs/` has the format: what a text says as a tree, and
//! how its lines are spelled (`Statements`, `Operands`, `Spelling`, and `Lines` to `Flags` for what a line is made of). It doesn't promise that
//! memory is to be had: that no call always gives up is shown by tests alone.
#![tactic(auto)]

mod arity;
mod flag;
mod flag_word;
mod frame;
mod frame_words;
mod instruction_words;
mod label;
mod law;
mod line;
mod line_words;
mod lines_said;
mod mnemonic;
mod mnemonic_table;
mod name;
mod named_operand;
mod number;
mod operand;
mod operand_words;
mod program;
mod quote;
mod reading;
mod said;
mod statement;
mod switch_words;
mod unit;
mod word;

pub use flag::{push_class_flags, push_field_flags, push_method_flags};
pub use frame::{Frame, FrameLine, FrameType};
pub use law::{
    one_opcode, one_spelling, one_statement, parameters_spelled, program_said, some_lines,
    whole_lines,
};
pub use line::first_line;
pub use mnemonic::{name_of, opcode_of};
pub use name::push_name;
pub use operand::{Instruction, Label, MemberText, Operand, Value};
pub use program::{CatchLine, CodeLine, CodeText, FieldText, MethodText, Program};
pub use quote::push_quoted;
pub use reading::read_line;
pub use statement::{ClassLine, Limits, MethodLine, Statement};
