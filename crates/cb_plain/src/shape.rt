// Which words of an object hold references.
use crate::{List, Marks};

/// What the words of objects of one kind hold, behind their header. `true` says that a word holds a reference, and
/// `false` that it holds a number.
#[derive(Debug, Drop)]
pub enum Shape {
    /// An object of a class, a mark for each of its fields.
    Fields(Marks),
    /// An array, the mark of each of its elements.
    Elements(bool),
}

/// A list of shapes.
pub type Shapes = List<Shape>;
