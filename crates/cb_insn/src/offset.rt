// The offset from an instruction's place to a target.
ghost use Rattle.std.specs.Prelude.{◌≡◌, ◌↔◌, FitsSigned, IsTrue};
ghost use Rattle.std.specs.Int.{w16, w32};
ghost use Rattle.cb_insn.specs.Grammar.{offset};

/// The offset from a place to a target.
pub(crate) fn offset(pc: u32, target: u32) -> i64
    ensures { result ≡ offset pc target }
{
    i64::from(target) - i64::from(pc)
}

/// Whether a target is as near as two bytes tell.
pub(crate) fn is_close(pc: u32, target: u32) -> bool
    ensures { IsTrue result ↔ FitsSigned w16 (offset pc target) }
{
    i16::try_from(offset(pc, target)).is_ok()
}

/// Whether a target is as near as four bytes tell.
pub(crate) fn is_near(pc: u32, target: u32) -> bool
    ensures { IsTrue result ↔ FitsSigned w32 (offset pc target) }
{
    i32::try_from(offset(pc, target)).is_ok()
}
