// The direct superinterfaces (JVMS §4.1).
ghost use Rattle.std.specs.Prelude.{◌≡◌};

use crate::constants::Constants;
use crate::fault::Fault;
use crate::numbers::u2_at;
use crate::table::Entry;
use std::alloc::Global;

/// The index of an interface.
impl Entry for u32 {
    ghost use Rattle.cb_classfile.specs.Class.{SpellsInterface};

    ghost spells = { SpellsInterface };

    fn read<'a>(
        _: Global,
        constants: &Constants<'_>,
        bytes: &'a [u8],
    ) -> Result<(u32, &'a [u8]), Fault> {
        let (index, rest) = u2_at(bytes)?;
        if !constants.is_class(index) {
            return Err(Fault::Malformed);
        }
        Ok((u32::from(index), rest))
    }
}
