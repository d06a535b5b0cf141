// What the instruction at which the topmost frame stands makes: its site, its size, and the place where the instruction goes on.
ghost use Rattle.std.specs.Prelude.{◌≡◌, ◌+◌, ◌<◌, ◌^◌, is_some, length, pos, slice_get, true, Some};
ghost use Rattle.cb_frames.specs.Tops.{top_stack};
ghost use Rattle.cb_link.specs.Having.{site_kinds};
ghost use Rattle.cb_link.specs.Program.{Linked};
ghost use Rattle.cb_link.specs.Slots.{shape};
ghost use Rattle.cb_machine.specs.Machine.{kind_of_site};
ghost use Rattle.cb_plain.specs.declared.value.Value.TheVariants.{Int};
ghost use Rattle.cb_safety.specs.Linked.{IsLinked};
ghost use Rattle.cb_verify.specs.Typed.{IsTyped};
ghost use Rattle.cb_interp.specs.Needing.{HasFewFields, IsArrayHere, IsObjectHere, IsSiteOf, MakesKinds, TellsDimensions, fields_count, holds_size};

use cb_frames::{Frame, Roots};
use cb_link::{Decoded, Program};
use cb_plain::{Shape, Value};
use cb_safety::{linked_programs, spelled_rises};

/// What is placed at a site, of so many words of contents, before the topmost frame goes on at the next place.
#[derive(Clone, Copy, Debug, Drop, Eq, PartialEq)]
pub(crate) struct Making {
    pub(crate) site: u32,
    pub(crate) size: u32,
    pub(crate) next: u32,
}

/// The object of a class that the instruction makes: `new` (JVMS §6.5).
pub(crate) fn object_here(program: &Program, roots: &Roots, decoded: &Decoded) -> Making
    requires makes { MakesKinds program.now roots.now.roots 1 }
    requires next { is_some decoded.now.next ≡ true }
    requires few { HasFewFields program.now }
    ensures { IsObjectHere program.now roots.now.roots decoded.now result }
{
    let site = site_here(program, roots, 0);
    Making {
        site,
        size: object_size(program, site),
        next: next_here(decoded),
    }
}

/// The array that the instruction makes, of the size on top of the stack: `newarray`, `anewarray`, and `multianewarray` of one dimension
/// (JVMS §6.5).
pub(crate) fn array_here(program: &Program, roots: &Roots, decoded: &Decoded) -> Making
    requires makes { MakesKinds program.now roots.now.roots 1 }
    requires next { is_some decoded.now.next ≡ true }
    requires size { holds_size (slice_get (top_stack roots.now.roots) 0) ≡ true }
    ensures { IsArrayHere program.now roots.now.roots decoded.now result }
{
    Making {
        site: site_here(program, roots, 0),
        size: size_at(roots, 0),
        next: next_here(decoded),
    }
}

/// Where the instruction goes on, which has a next one.
pub(crate) fn next_here(decoded: &Decoded) -> u32
    requires { is_some decoded.now.next ≡ true }
    ensures { decoded.now.next ≡ Some result }
{
    decoded.next.unwrap_or(0)
}

/// The site of a dimension of what the instruction makes.
pub(crate) fn site_here(program: &Program, roots: &Roots, dimension: u32) -> u32
    requires { MakesKinds program.now roots.now.roots (dimension + 1) }
    ensures here { IsSiteOf program.now roots.now.roots dimension result }
    ensures within { result < length (site_kinds program.now) }
{
    match roots.top() {
        Some(Frame::Running { method, pc }) => program.site(method, pc, dimension),
        Some(Frame::Initialising { .. }) | None => 0,
    }
}

/// The size at a depth of the stack.
pub(crate) fn size_at(roots: &Roots, below: u32) -> u32
    requires { holds_size (slice_get (top_stack roots.now.roots) below) ≡ true }
    ensures { slice_get (top_stack roots.now.roots) below ≡ Some (Int (pos result)) }
{
    match roots.peek(below) {
        Value::Int(number) => number.unsigned_abs(),
        Value::Long(_) | Value::Ref(_) => 0,
    }
}

/// How many words of contents an object of a site has. Arrays have none of their own.
fn object_size(program: &Program, site: u32) -> u32
    requires site { site < length (site_kinds program.now) }
    requires few { HasFewFields program.now }
    ensures { fields_count (shape program.now (kind_of_site program.now site)) ≡ result }
{
    count_fields(program.shape(program.site_kind(site)))
}

/// How many fields objects of a shape have.
fn count_fields(shape: &Shape) -> u32
    requires { fields_count shape.now < 2 ^ 32 }
    ensures { fields_count shape.now ≡ result }
{
    match shape {
        Shape::Fields(marks) => marks.len() as u32,
        Shape::Elements(_) => 0,
    }
}

/// In a program that is linked and typed the site of each dimension of what an instruction makes is the one that the machine finds there.
pub(crate) fn dimensions_are_told()
    ensures { (program : Linked) → IsLinked program → IsTyped program → TellsDimensions program }
{
    spelled_rises();
}

/// Objects of a linked program have few fields.
pub(crate) fn fields_are_few()
    ensures { (program : Linked) → IsLinked program → HasFewFields program }
{
    linked_programs();
}
