// Whether the members of a class differ in name or descriptor (JVMS §4.5, §4.6).
ghost use Rattle.std.specs.Prelude.{◌≡◌, ◌≢◌, ◌↔◌, ℕ, List, map, IfOk, IsTrue, slice_index, unwrap_or, Some, if◌then◌else◌};
ghost use Rattle.std.specs.BTreeMap.{get_by};
ghost use Rattle.std.specs.Cmp.Lexicographic.{slice_cmp};
ghost use Rattle.std.specs.List.{AllByRecursion, AllPairs};
ghost use Rattle.std.specs.Ordering.{nat_cmp};
ghost use Rattle.std.specs.Str.{bytes_eq};
ghost use Rattle.cb_classfile.specs.Class.{Differ, signature};
ghost use Rattle.cb_classfile.specs.Pool.{text_at};

use crate::constants::Constants;
use crate::{Field, Method};
use std::alloc::{AllocError, Global};
use std::collections::{BTreeMap, BTreeSet};

/// What has a name and a descriptor.
pub trait Named {
    /// The indices of its name and of its descriptor.
    ghost indices: { Self → ℕ × ℕ };

    /// The indices of its name and of its descriptor.
    fn indices(&self) -> (u16, u16)
        ensures { result ≡ indices self.now };
}

impl Named for Field {
    ghost indices = { λ field. (field.name, field.descriptor) };

    fn indices(&self) -> (u16, u16) {
        (self.name, self.descriptor)
    }
}

impl Named for Method {
    ghost indices = { λ method. (method.name, method.descriptor) };

    fn indices(&self) -> (u16, u16) {
        (self.name, self.descriptor)
    }
}

/// Whether no two of the members have the same name and the same descriptor. Takes no memory, and time in the number of
/// pairs, for each of which two names and two descriptors may be compared.
pub fn do_differ<M: Named>(constants: &Constants<'_>, members: &[M]) -> bool
    ensures { IsTrue result ↔ Differ constants.now (map M.indices members.now) }
{
    let mut rest = members;
    while let Some((first, behind)) = rest.split_first() {
        if !differs_from(constants, first, behind) {
            return false;
        }
        rest = behind;
    }
    true
}

/// Whether a member differs from each of the others in name or descriptor.
fn differs_from<M: Named>(constants: &Constants<'_>, member: &M, others: &[M]) -> bool
    ensures { IsTrue result ↔ AllByRecursion (λ other. signature constants.now (M.indices member.now).0 (M.indices member.now).1
        ≢ signature constants.now (M.indices other).0 (M.indices other).1) others.now }
{
    let member = member.indices();
    others
        .iter()
        .all(|other| differ(constants, member, other.indices()))
}

/// Whether two members differ in name or descriptor.
fn differ(constants: &Constants<'_>, one: (u16, u16), other: (u16, u16)) -> bool
    ensures { IsTrue result
        ↔ (signature constants.now one.0 one.1 ≢ signature constants.now other.0 other.1) }
{
    !is_same(constants, one.0, other.0) || !is_same(constants, one.1, other.1)
}

/// Whether two indices name equal texts, or both name none.
fn is_same(constants: &Constants<'_>, one: u16, other: u16) -> bool
    ensures { IsTrue result ↔ (text_at constants.now one ≡ text_at constants.now other) }
{
    if one == other {
        return true;
    }
    match (constants.text(one), constants.text(other)) {
        (Some(one), Some(other)) => one == other,
        (None, None) => true,
        _ => false,
    }
}
