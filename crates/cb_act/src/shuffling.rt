// Instructions that only move what stands on the stack of the topmost frame (JVMS §6.5, pop to swap).
ghost use Rattle.std.specs.Prelude.{◌≡◌, ◌≤◌, is_some, option_map, true, Some};
ghost use Rattle.cb_frames.specs.Tops.{top_room, top_stack};
ghost use Rattle.cb_shapes.specs.declared.shuffle.Shuffle.TheVariants as shuffles;
ghost use Rattle.cb_act.specs.Effects.{around, behind_shuffle, growth, is_two, stacked};
ghost use Rattle.cb_machine.specs.Values.{category_of_value};

use crate::operands::push_two;
use cb_frames::Roots;
use cb_plain::Value;

/// `pop`
#[inline(always)]
pub(crate) fn pop(roots: &mut Roots)
    requires there { is_some (behind_shuffle shuffles.Pop roots.old.roots) ≡ true }
    ensures behind { behind_shuffle shuffles.Pop roots.old.roots ≡ Some roots.new.roots }
    ensures limit { roots.new.limit ≡ roots.old.limit }
{
    roots.pop();
}

/// `pop2`
#[inline(always)]
pub(crate) fn pop2(roots: &mut Roots)
    requires there { is_some (behind_shuffle shuffles.Pop2 roots.old.roots) ≡ true }
    ensures behind { behind_shuffle shuffles.Pop2 roots.old.roots ≡ Some roots.new.roots }
    ensures limit { roots.new.limit ≡ roots.old.limit }
{
    let a = roots.pop();
    if !is_long(a) {
        roots.pop();
    }
}

/// `dup`
#[inline(always)]
pub(crate) fn dup(roots: &mut Roots)
    requires there { is_some (behind_shuffle shuffles.Dup roots.old.roots) ≡ true }
    requires room { growth shuffles.Dup (top_stack roots.old.roots) ≤ top_room roots.old.roots }
    ensures behind { behind_shuffle shuffles.Dup roots.old.roots ≡ Some roots.new.roots }
    ensures limit { roots.new.limit ≡ roots.old.limit }
{
    let a = roots.peek(0);
    roots.push(a);
}

/// `dup_x1`
#[inline(always)]
pub(crate) fn dup_x1(roots: &mut Roots)
    requires there { is_some (behind_shuffle shuffles.DupX1 roots.old.roots) ≡ true }
    requires room { growth shuffles.DupX1 (top_stack roots.old.roots) ≤ top_room roots.old.roots }
    ensures behind { behind_shuffle shuffles.DupX1 roots.old.roots ≡ Some roots.new.roots }
    ensures limit { roots.new.limit ≡ roots.old.limit }
{
    let a = roots.pop();
    let b = roots.pop();
    roots.push(a);
    roots.push(b);
    roots.push(a);
}

/// `swap`
#[inline(always)]
pub(crate) fn swap(roots: &mut Roots)
    requires there { is_some (behind_shuffle shuffles.Swap roots.old.roots) ≡ true }
    ensures behind { behind_shuffle shuffles.Swap roots.old.roots ≡ Some roots.new.roots }
    ensures limit { roots.new.limit ≡ roots.old.limit }
{
    let a = roots.pop();
    let b = roots.pop();
    roots.push(a);
    roots.push(b);
}

/// `dup_x2`
#[inline(always)]
pub(crate) fn dup_x2(roots: &mut Roots)
    requires there { is_some (behind_shuffle shuffles.DupX2 roots.old.roots) ≡ true }
    requires room { growth shuffles.DupX2 (top_stack roots.old.roots) ≤ top_room roots.old.roots }
    ensures behind { behind_shuffle shuffles.DupX2 roots.old.roots ≡ Some roots.new.roots }
    ensures limit { roots.new.limit ≡ roots.old.limit }
{
    let a = roots.pop();
    let b = roots.pop();
    if is_long(b) {
        roots.push(a);
        roots.push(b);
        roots.push(a);
    } else {
        let c = roots.pop();
        push_two(roots, a, c);
        push_two(roots, b, a);
    }
}

/// `dup2`
#[inline(always)]
pub(crate) fn dup2(roots: &mut Roots)
    requires there { is_some (behind_shuffle shuffles.Dup2 roots.old.roots) ≡ true }
    requires room { growth shuffles.Dup2 (top_stack roots.old.roots) ≤ top_room roots.old.roots }
    ensures behind { behind_shuffle shuffles.Dup2 roots.old.roots ≡ Some roots.new.roots }
    ensures limit { roots.new.limit ≡ roots.old.limit }
{
    let a = roots.pop();
    if is_long(a) {
        roots.push(a);
        roots.push(a);
    } else {
        let b = roots.pop();
        roots.push(b);
        roots.push(a);
        roots.push(b);
        roots.push(a);
    }
}

/// `dup2_x1`
#[inline(always)]
pub(crate) fn dup2_x1(roots: &mut Roots)
    requires there { is_some (behind_shuffle shuffles.Dup2X1 roots.old.roots) ≡ true }
    requires room { growth shuffles.Dup2X1 (top_stack roots.old.roots) ≤ top_room roots.old.roots }
    ensures behind { behind_shuffle shuffles.Dup2X1 roots.old.roots ≡ Some roots.new.roots }
    ensures limit { roots.new.limit ≡ roots.old.limit }
{
    let a = roots.pop();
    let b = roots.pop();
    if is_long(a) {
        roots.push(a);
        roots.push(b);
        roots.push(a);
    } else {
        let c = roots.pop();
        push_two(roots, b, a);
        roots.push(c);
        push_two(roots, b, a);
    }
}

/// `dup2_x2`
#[inline(always)]
pub(crate) fn dup2_x2(roots: &mut Roots)
    requires there { is_some (behind_shuffle shuffles.Dup2X2 roots.old.roots) ≡ true }
    requires room { growth shuffles.Dup2X2 (top_stack roots.old.roots) ≤ top_room roots.old.roots }
    ensures behind { behind_shuffle shuffles.Dup2X2 roots.old.roots ≡ Some roots.new.roots }
    ensures limit { roots.new.limit ≡ roots.old.limit }
{
    let a = roots.pop();
    let b = roots.pop();
    if is_long(a) {
        if is_long(b) {
            roots.push(a);
            roots.push(b);
            roots.push(a);
        } else {
            let c = roots.pop();
            roots.push(a);
            roots.push(c);
            roots.push(b);
            roots.push(a);
        }
        return;
    }
    lay_around(roots, a, b);
}

/// Puts two values of one word each below what is on top, and upon it.
#[inline(always)]
fn lay_around(roots: &mut Roots, a: Value, b: Value)
    requires there { is_some (around a b (top_stack roots.old.roots)) ≡ true }
    requires room { 4 ≤ top_room roots.old.roots }
    ensures behind { option_map (stacked roots.old.roots) (around a b (top_stack roots.old.roots))
        ≡ Some roots.new.roots }
    ensures limit { roots.new.limit ≡ roots.old.limit }
{
    let c = roots.pop();
    if is_long(c) {
        push_two(roots, b, a);
        roots.push(c);
        push_two(roots, b, a);
    } else {
        let d = roots.pop();
        push_two(roots, b, a);
        push_two(roots, d, c);
        push_two(roots, b, a);
    }
}

/// Whether a value is a long.
#[inline(always)]
fn is_long(value: Value) -> bool
    ensures { result ≡ is_two (category_of_value value) }
{
    matches!(value, Value::Long(_))
}
