// `System.arraycopy` in two calls: it is planned, and what was planned is copied (Java SE 8 API, java.lang.System).
ghost use Rattle.std.specs.Prelude.{◌≡◌, ℕ, IfSome, Some, length, map, true};
ghost use Rattle.std.specs.declared.result.Result.TheVariants.{Ok};
ghost use Rattle.cb_heap.specs.Closed.{IsClosed};
ghost use Rattle.cb_heap.specs.Follows.{Follows};
ghost use Rattle.cb_heap.specs.Reading.{read_value};
ghost use Rattle.cb_library.specs.declared.native.Native.TheVariants as natives;
ghost use Rattle.cb_link.specs.Having.{IsBelow};
ghost use Rattle.cb_plain.specs.State.{Roots};
ghost use Rattle.cb_natives.specs.Answers.{Beside};
ghost use Rattle.cb_natives.specs.ArrayRanges.{MayCopyRanges, PlansCopy, copied_by, ends_with, on_ranges};
ghost use Rattle.cb_natives.specs.Given.{have_sorts, sorts_of};
ghost use Rattle.cb_natives.specs.MakingArrays.{AreLaid};
ghost use Rattle.cb_natives.specs.MakingKept.{HasKinds};
ghost use Rattle.cb_natives.specs.MakingOwn.{call_of};

use crate::Exception;
use crate::array_ranges::{Ranges, ranges_of};
use crate::own_arguments::range_arguments;
use crate::range_copies::{copy_range, fitting_count};
use cb_heap::Store;
use cb_link::Program;
use cb_plain::{Shape, Value};

/// What a call copies, if it comes so far, and which exception it throws behind that, if any.
#[derive(Clone, Copy, Debug, Drop)]
pub struct CopyPlan {
    pub ranges: Option<Ranges>,
    pub fails: Option<Exception>,
}

/// What a call copies and throws: words up to the first reference that isn't to an instance of what the elements are, and behind these an
/// ArrayStoreException. Takes time in the words where they refer, and is constant in it elsewhere.
pub fn plan_copy<S: Store>(program: &Program, store: &S, arguments: &[Value]) -> CopyPlan
    requires sorts { have_sorts (sorts_of natives.SystemArraycopy) arguments.now ≡ true }
    requires laid { AreLaid program.now (S.storage store.now).kept natives.SystemArraycopy (map (read_value (S.storage store.now).index) arguments.now) }
    requires kinds { HasKinds program.now (S.storage store.now).kept }
    ensures { PlansCopy program.now (S.storage store.now).kept (S.storage store.now).index (map (read_value (S.storage store.now).index) arguments.now) result }
{
    let (source, from, to, at, count) = range_arguments(arguments);
    match ranges_of(program, store, source, from, to, at, count) {
        Ok(ranges) => plan_ranges(program, store, ranges),
        Err(exception) => CopyPlan {
            ranges: None,
            fails: Some(exception),
        },
    }
}

/// What is copied of ranges, and what is thrown where that isn't all.
fn plan_ranges<S: Store>(program: &Program, store: &S, ranges: Ranges) -> CopyPlan
    requires may { MayCopyRanges (S.storage store.now).kept (S.storage store.now).index ranges }
    requires known { IsBelow (length program.now.kinds) ranges.element }
    requires kinds { HasKinds program.now (S.storage store.now).kept }
    ensures does { (frames : ℕ) (beside : Beside) → on_ranges (call_of program.now (S.storage store.now).kept frames beside) (S.storage store.now).index (Ok ranges)
        ≡ Some (ends_with (call_of program.now (S.storage store.now).kept frames beside) (copied_by (S.storage store.now).kept (S.storage store.now).index result.ranges) result.fails) }
    ensures may { IfSome result.ranges (MayCopyRanges (S.storage store.now).kept (S.storage store.now).index) }
{
    let fit = fitting_count(
        program,
        store,
        ranges.element,
        ranges.source,
        ranges.start,
        ranges.count,
    );
    let front = Ranges {
        source: ranges.source,
        start: ranges.start,
        to: ranges.to,
        at: ranges.at,
        count: fit,
        element: ranges.element,
    };
    if fit == ranges.count {
        CopyPlan {
            ranges: Some(front),
            fails: None,
        }
    } else {
        CopyPlan {
            ranges: Some(front),
            fails: Some(Exception::ArrayStore),
        }
    }
}

/// Copies what was planned for these objects, as through a second array. Takes time in the words.
pub fn copy_planned<S: Store>(store: &mut S, plan: CopyPlan)
    requires may { IfSome plan.ranges (MayCopyRanges (S.storage store.old).kept (S.storage store.old).index) }
    requires follows { Follows (S.storage store.old).settings.allows (copied_by (S.storage store.old).kept (S.storage store.old).index plan.ranges) }
    ensures kept { (S.storage store.new).kept ≡ copied_by (S.storage store.old).kept (S.storage store.old).index plan.ranges }
    ensures count { length (S.storage store.new).kept ≡ length (S.storage store.old).kept }
    ensures closed { (roots : Roots) → IsClosed (record { roots = roots; objects = (S.storage store.old).kept }) → IsClosed (record { roots = roots; objects = (S.storage store.new).kept }) }
    ensures places { (S.storage store.new).index ≡ (S.storage store.old).index }
    ensures facts { (S.storage store.new).facts ≡ (S.storage store.old).facts }
    ensures granted { (S.storage store.new).granted ≡ (S.storage store.old).granted }
    ensures faults { (S.storage store.new).faults ≡ (S.storage store.old).faults }
    ensures settings { (S.storage store.new).settings ≡ (S.storage store.old).settings }
{
    if let Some(ranges) = plan.ranges {
        let shape = Shape::Elements(ranges.element.is_reference());
        copy_range(
            store,
            &shape,
            ranges.source,
            ranges.start,
            ranges.to,
            ranges.at,
            ranges.count,
        );
    }
}
