// Operands on the stack of the topmost frame.
ghost use Rattle.std.specs.Prelude.{◌≡◌, ◌<◌, ◌+◌, ◌∷◌, drop, length, slice_get, true, Some};
ghost use Rattle.cb_frames.specs.Limited.{with_roots};
ghost use Rattle.cb_frames.specs.Tops.{top_room, top_stack};
ghost use Rattle.cb_machine.specs.Values.{sort_of_basic};
ghost use Rattle.cb_plain.specs.declared.value.Value.TheVariants as values;
ghost use Rattle.cb_shapes.specs.declared.sort.Sort.TheVariants as sorts;
ghost use Rattle.cb_act.specs.Effects.{has_sort, stacked};

use cb_frames::Roots;
use cb_kinds::Basic;
use cb_plain::Value;

/// The int at a depth of the stack.
#[inline(always)]
pub fn int_at(roots: &Roots, below: u32) -> i32
    requires { has_sort sorts.Int (slice_get (top_stack roots.now.roots) below) ≡ true }
    ensures { slice_get (top_stack roots.now.roots) below ≡ Some (values.Int result) }
{
    roots.int(below)
}

/// The long at a depth of the stack.
#[inline(always)]
pub fn long_at(roots: &Roots, below: u32) -> i64
    requires { has_sort sorts.Long (slice_get (top_stack roots.now.roots) below) ≡ true }
    ensures { slice_get (top_stack roots.now.roots) below ≡ Some (values.Long result) }
{
    roots.long(below)
}

/// The value on top of the stack, where it is of the sort of a type.
#[inline(always)]
pub(crate) fn operand_of(roots: &Roots, basic: Basic) -> Value
    requires { has_sort (sort_of_basic basic) (slice_get (top_stack roots.now.roots) 0) ≡ true }
    ensures { slice_get (top_stack roots.now.roots) 0 ≡ Some result }
{
    match basic {
        Basic::Reference(_) => Value::Ref(reference_at(roots, 0)),
        Basic::Long => Value::Long(long_at(roots, 0)),
        Basic::Boolean | Basic::Byte | Basic::Char | Basic::Short | Basic::Int => {
            Value::Int(int_at(roots, 0))
        }
    }
}

/// Puts a value in place of the topmost one.
#[inline(always)]
pub(crate) fn give_for_one(roots: &mut Roots, value: Value)
    requires { 0 < length (top_stack roots.old.roots) }
    ensures { roots.new ≡ with_roots roots.old (stacked roots.old.roots (value ∷ drop 1
        (top_stack roots.old.roots))) }
{
    roots.pop();
    roots.push(value);
}

/// Puts a value in place of the two topmost ones.
#[inline(always)]
pub(crate) fn give_for_two(roots: &mut Roots, value: Value)
    requires { 1 < length (top_stack roots.old.roots) }
    ensures { roots.new ≡ with_roots roots.old (stacked roots.old.roots (value ∷ drop 2
        (top_stack roots.old.roots))) }
{
    roots.pop();
    roots.pop();
    roots.push(value);
}

/// Puts a value in place of the topmost ones, as many as come to `last` and one.
pub fn give_for(roots: &mut Roots, last: u32, value: Value)
    requires few { last < 255 }
    requires there { last < length (top_stack roots.old.roots) }
    ensures { roots.new ≡ with_roots roots.old (stacked roots.old.roots (value ∷ drop (last + 1)
        (top_stack roots.old.roots))) }
{
    for _ in 0..last {
        roots.pop();
    }
    give_for_one(roots, value);
}

/// Puts two values on the stack, the second upon the first.
#[inline(always)]
pub(crate) fn push_two(roots: &mut Roots, first: Value, second: Value)
    requires { 1 < top_room roots.old.roots }
    ensures pushed { roots.new ≡ with_roots roots.old (stacked roots.old.roots
        (second ∷ first ∷ top_stack roots.old.roots)) }
    ensures room { top_room roots.old.roots ≡ top_room roots.new.roots + 2 }
{
    roots.push(first);
    roots.push(second);
}

/// Takes the topmost value.
#[inline(always)]
pub fn take_one(roots: &mut Roots)
    requires { 0 < length (top_stack roots.old.roots) }
    ensures { roots.new ≡ with_roots roots.old (stacked roots.old.roots (drop 1
        (top_stack roots.old.roots))) }
{
    roots.pop();
}

/// Takes the two topmost values.
#[inline(always)]
pub fn take_two(roots: &mut Roots)
    requires { 1 < length (top_stack roots.old.roots) }
    ensures { roots.new ≡ with_roots roots.old (stacked roots.old.roots (drop 2
        (top_stack roots.old.roots))) }
{
    roots.pop();
    roots.pop();
}

/// Takes the three topmost values.
#[inline(always)]
pub(crate) fn take_three(roots: &mut Roots)
    requires { 2 < length (top_stack roots.old.roots) }
    ensures { roots.new ≡ with_roots roots.old (stacked roots.old.roots (drop 3
        (top_stack roots.old.roots))) }
{
    roots.pop();
    roots.pop();
    roots.pop();
}

/// The place of the object, or 0 for null, to which the value at a depth of the stack refers.
#[inline(always)]
pub fn reference_at(roots: &Roots, below: u32) -> u64
    requires { has_sort sorts.Reference (slice_get (top_stack roots.now.roots) below) ≡ true }
    ensures { slice_get (top_stack roots.now.roots) below ≡ Some (values.Ref result) }
{
    roots.reference_at(below)
}
