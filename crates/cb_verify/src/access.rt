// Where a member is accessed.
use crate::TypeFrame;
use crate::member::Member;
use crate::within::Within;

/// An instruction that names a member: the method that it is in, the member, and the frame before it.
#[derive(Clone, Copy)]
pub(crate) struct Access<'a> {
    pub method: &'a Within<'a>,
    pub member: &'a Member<'a>,
    pub frame: &'a TypeFrame,
}
