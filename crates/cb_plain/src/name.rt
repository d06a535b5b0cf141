// A text that contracts see as its bytes.
ghost use Rattle.std.specs.Prelude.{◌≡◌, IfOk};

use crate::{List, OutOfMemory};
use std::alloc::Global;
use std::marker::Model;

/// A text in UTF-8. Contracts see it as the list of its bytes.
#[derive(Debug, Drop)]
pub struct Name {
    text: String,
}

/// A list of names.
pub type Names = List<Name>;

impl Model for Name {
    ghost use Rattle.std.specs.Prelude.{List as Items, ℕ};

    ghost Value = { Items ℕ };

    ghost view = { λ name. name.text.bytes.items };
}

impl Name {
    /// The name with this text. `OutOfMemory` where its room was not to be had.
    pub fn of(alloc: Global, text: &str) -> Result<Name, OutOfMemory>
        ensures { IfOk result (λ name. name ≡ text.now) }
    {
        let text = String::from_str(alloc, text)?;
        Ok(Name { text })
    }

    /// Its text.
    pub fn text(&self) -> &str
        ensures { result.now ≡ self.now }
    {
        self.text.as_str()
    }
}
