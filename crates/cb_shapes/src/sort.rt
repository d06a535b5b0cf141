// The sorts of values.
ghost use Rattle.std.specs.Prelude.{◌≡◌};
ghost use Rattle.cb_shapes.specs.Sorts.{category_of};

/// What a value on the operand stack or in a local variable is (JVMS §2.11.1). Booleans, bytes, chars and shorts are ints there.
#[derive(Clone, Copy, Debug, Drop, Eq, PartialEq)]
pub enum Sort {
    Int,
    Long,
    Reference,
}

/// How many local variables a value takes (JVMS §2.6.1, table 2.11.1-B).
#[derive(Clone, Copy, Debug, Drop, Eq, PartialEq)]
pub enum Category {
    One,
    Two,
}

impl Sort {
    /// The category of the values of a sort.
    pub fn category(self) -> Category
        ensures { result ≡ category_of self }
    {
        match self {
            Sort::Long => Category::Two,
            _ => Category::One,
        }
    }
}
