// Conditions of branches: each takes from the stack of the topmost frame what it looks at, and says whether it holds (JVMS §6.5, ifeq to
// if_icmple, ifnull and ifnonnull). Whether two references are one is for a store to say.
ghost use Rattle.std.specs.Prelude.{◌≡◌, is_some, true, Some};
ghost use Rattle.cb_frames.specs.Tops.{top_stack};
ghost use Rattle.cb_shapes.specs.declared.test.Condition.TheVariants as conditions;
ghost use Rattle.cb_act.specs.Effects.{behind_test, tested_on, told};

use crate::operands::{int_at, reference_at, take_one, take_two};
use cb_frames::Roots;
use cb_shapes::Test;

/// An int is compared with 0.
#[inline(always)]
pub(crate) fn with_zero(roots: &mut Roots, how: Test) -> bool
    requires { is_some (tested_on (conditions.WithZero how) (top_stack roots.old.roots)) ≡ true }
    ensures behind { behind_test (conditions.WithZero how) roots.old.roots ≡ Some roots.new.roots }
    ensures limit { roots.new.limit ≡ roots.old.limit }
    ensures told { told (conditions.WithZero how) roots.old.roots ≡ Some result }
{
    let a = int_at(roots, 0);
    take_one(roots);
    how.passes(a, 0)
}

/// An int is compared with the one above it.
#[inline(always)]
pub(crate) fn compares_ints(roots: &mut Roots, how: Test) -> bool
    requires { is_some (tested_on (conditions.OfInts how) (top_stack roots.old.roots)) ≡ true }
    ensures behind { behind_test (conditions.OfInts how) roots.old.roots ≡ Some roots.new.roots }
    ensures limit { roots.new.limit ≡ roots.old.limit }
    ensures told { told (conditions.OfInts how) roots.old.roots ≡ Some result }
{
    let b = int_at(roots, 0);
    let a = int_at(roots, 1);
    take_two(roots);
    how.passes(a, b)
}

/// Whether a reference is null, or isn't.
#[inline(always)]
pub(crate) fn is_null(roots: &mut Roots, is: bool) -> bool
    requires { is_some (tested_on (conditions.IsNull is) (top_stack roots.old.roots)) ≡ true }
    ensures behind { behind_test (conditions.IsNull is) roots.old.roots ≡ Some roots.new.roots }
    ensures limit { roots.new.limit ≡ roots.old.limit }
    ensures told { told (conditions.IsNull is) roots.old.roots ≡ Some result }
{
    let a = reference_at(roots, 0);
    take_one(roots);
    (a == 0) == is
}
