// What the constants of a method's class name.
ghost use Rattle.std.specs.Prelude.{◌≡◌};
ghost use Rattle.cb_verify.specs.Calls.{is_callable};
ghost use Rattle.cb_verify.specs.Within.{holder, is_init, name_at};

use crate::within::Within;
use cb_text::Constant;

/// The name of a constructor.
const INIT: [u16; 6] = [
    b'<' as u16,
    b'i' as u16,
    b'n' as u16,
    b'i' as u16,
    b't' as u16,
    b'>' as u16,
];

/// The name of the initialiser of a class.
const CLINIT: [u16; 8] = [
    b'<' as u16,
    b'c' as u16,
    b'l' as u16,
    b'i' as u16,
    b'n' as u16,
    b'i' as u16,
    b't' as u16,
    b'>' as u16,
];

/// Whether a name is that of a constructor.
pub(crate) fn is_init(name: &[u16]) -> bool
    ensures { result ≡ is_init name.now }
{
    name == INIT.as_slice()
}

/// Whether a name is that of a method that instructions may call by its name.
pub(crate) fn is_callable(name: &[u16]) -> bool
    ensures { result ≡ is_callable name.now }
{
    !is_init(name) && name != CLINIT.as_slice()
}

impl<'a> Within<'a> {
    /// The kind of the class or array whose member an index names.
    pub fn holder(&self, index: u16) -> Option<u32>
        ensures { result ≡ holder self.now index }
    {
        match self.program.class(self.class as usize).pool.get(index)? {
            Constant::Fieldref(holder, _)
            | Constant::Methodref(holder, _)
            | Constant::InterfaceMethodref(holder, _) => self.kind_named(*holder),
            _ => None,
        }
    }

    /// The name of the member that an index names, or no units where it names none.
    pub fn name_at(&self, index: u16) -> &[u16]
        ensures { result.now ≡ name_at self.now index }
    {
        let pool = &self.program.class(self.class as usize).pool;
        match pool.get(index) {
            Some(
                Constant::Fieldref(_, named)
                | Constant::Methodref(_, named)
                | Constant::InterfaceMethodref(_, named),
            ) => match pool.name_and_type(*named) {
                Some(names) => names.name,
                None => &[],
            },
            _ => &[],
        }
    }
}
