// What tells of rows.
use crate::Trouble;

/// What tells of the rows of tables.
pub trait Tables {
    /// Adds what there is to tell of a row of the table with a name.
    fn tell(&mut self, table: &str, row: &str, told: &mut String) -> Result<(), Trouble>;
}
