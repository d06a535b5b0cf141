// Classes, each behind its parents.
ghost use Rattle.std.specs.Prelude.{◌≡◌, ◌^◌, ◌<◌, ◌++◌, ℕ, List, length, IfOk, OnOk};
ghost use Rattle.cb_hierarchy.specs.Above.{IsAcyclic};
ghost use Rattle.cb_hierarchy.specs.Classes.{AreClasses, parents};
ghost use Rattle.cb_hierarchy.specs.Inner.{IsParentsFirst};
ghost use Rattle.cb_hierarchy.specs.InnerRows.{AreOfRank, AreSquare, MarkAbove};

use crate::Classes;
use crate::ancestors::Ancestors;
use cb_plain::{Numbers, OutOfMemory};
use std::alloc::Global;

/// Adds the classes above which there are so many others.
fn push_of_rank(order: &mut Numbers, ranks: &[usize], rank: usize) -> Result<(), OutOfMemory>
    requires { length ranks.now < 2 ^ 32 }
    ensures { OnOk result ((more : List ℕ) × (order.new ≡ order.old ++ more) × AreOfRank ranks.now rank (length ranks.now) more) }
{
    for class in 0..ranks.len() as u32 {
        if ranks[class as usize] == rank {
            order.push(class)?;
        }
    }
    Ok(())
}

/// All classes, each behind its parents: above a parent there are fewer classes.
pub(crate) fn parents_first(
    alloc: Global,
    classes: &Classes,
    ancestors: &Ancestors,
) -> Result<Numbers, OutOfMemory>
    requires classes { AreClasses classes.now }
    requires acyclic { IsAcyclic classes.now }
    requires square { AreSquare (length classes.now) ancestors.now }
    requires marks { MarkAbove (parents classes.now) ancestors.now }
    ensures { IfOk result (IsParentsFirst classes.now) }
{
    let ranks = ancestors.counts(alloc)?;
    let mut order = Numbers::new(alloc);
    for rank in 0..classes.len() {
        push_of_rank(&mut order, ranks.as_slice(), rank)?;
    }
    Ok(order)
}
