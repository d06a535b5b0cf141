// What a program has, by numbers.
use cb_kinds::Basic;
use cb_plain::List;

/// What the parameters of a method are.
pub type Basics = List<Basic>;

/// A method: the number of its class, its place among the class's methods, and what its parameters and its result are. A
/// receiver is no parameter.
#[derive(Debug, Drop)]
pub struct LinkedMethod {
    pub class: u32,
    pub place: u32,
    pub parameters: Basics,
    pub result: Option<Basic>,
}

/// Methods by their numbers.
pub type LinkedMethods = List<LinkedMethod>;

/// A field: the number of its class, its place among the class's fields, and what its values are.
#[derive(Clone, Copy, Debug)]
pub struct LinkedField {
    pub class: u32,
    pub place: u32,
    pub basic: Basic,
}

/// Fields by their numbers.
pub type LinkedFields = List<LinkedField>;

/// Where an instruction makes an object: its method, its place, in an array of arrays the dimension, outermost first, and the
/// kind of the object.
#[derive(Clone, Copy, Debug)]
pub struct Site {
    pub method: u32,
    pub place: u32,
    pub dimension: u32,
    pub kind: u32,
}

/// Sites by their numbers, counted from behind the machine's own.
pub type Sites = List<Site>;
