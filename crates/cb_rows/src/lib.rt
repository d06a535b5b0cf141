//! Tables of rows in a text, for the programs that test the other crates: each row is handed to what tells of its table, and printed with
//! what was told. The gate compares what is printed with the file `stdout` beside the text.
//!
//! A line `table` begins a table with a name, and each line behind it that begins with `|` is a row. An empty line and one that begins with `#`
//! count for nothing. No clause says what is printed.
#![tactic(auto)]

mod digits;
mod report;
mod tables;
mod trouble;

pub use digits::{bytes_of, number_of, units_of};
pub use report::{Report, tell_rows};
pub use tables::Tables;
pub use trouble::Trouble;
