// The numbers at an index of the constant pool (JVMS §4.4.4, §4.4.5).
ghost use Rattle.std.specs.Prelude.{◌≡◌};
ghost use Rattle.cb_text.specs.Naming.{double_at, float_at, int_at, long_at};

use crate::{Constant, Pool};

impl Pool {
    /// The int at an index (JVMS §4.4.4), or `None` where none stands there. Takes constant time.
    pub fn integer(&self, index: u16) -> Option<i32>
        ensures { result ≡ int_at self.now index }
    {
        match self.get(index)? {
            Constant::Integer(number) => Some(number.cast_signed()),
            _ => None,
        }
    }

    /// The long at an index (JVMS §4.4.5), or `None` where none stands there. Takes constant time.
    pub fn long(&self, index: u16) -> Option<i64>
        ensures { result ≡ long_at self.now index }
    {
        match self.get(index)? {
            Constant::Long(number) => Some(number.cast_signed()),
            _ => None,
        }
    }

    /// The bits of the float at an index (JVMS §4.4.4), or `None` where none stands there. Takes constant time.
    pub fn float(&self, index: u16) -> Option<u32>
        ensures { result ≡ float_at self.now index }
    {
        match self.get(index)? {
            Constant::Float(bits) => Some(*bits),
            _ => None,
        }
    }

    /// The bits of the double at an index (JVMS §4.4.5), or `None` where none stands there. Takes constant time.
    pub fn double(&self, index: u16) -> Option<u64>
        ensures { result ≡ double_at self.now index }
    {
        match self.get(index)? {
            Constant::Double(bits) => Some(*bits),
            _ => None,
        }
    }
}
