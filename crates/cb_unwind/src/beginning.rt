// Classes that begin to be initialised.
ghost use Rattle.std.specs.Prelude.{◌≡◌, ◌<◌, ◌≤◌, is_ok, length, OnErr, OnOk};
ghost use Rattle.std.specs.List.{fold};
ghost use Rattle.cb_frames.specs.Limited.{with_roots};
ghost use Rattle.cb_link.specs.Slots.{statics};
ghost use Rattle.cb_machine.specs.Initialising.{own_statics};
ghost use Rattle.cb_plain.specs.Depth.{has_room};
ghost use Rattle.cb_unwind.specs.Begun.{NumbersOnly, begun, set_initial};

use crate::values::kept_value;
use cb_frames::{Deep, Roots};
use cb_link::{Named, Program};
use cb_plain::ClassState;

/// Begins to initialise a class upon the frames that stand: it is busy, its static fields with constants have their values, and its frame
/// stands at the first place (JVMS §5.5, §4.7.2). `Deep` where there is no room for the frame, which changes nothing. Takes time in the
/// static fields of the program.
pub fn begin_init(program: &Program, roots: &mut Roots, class: u32) -> Result<(), Deep>
    requires class { class < length roots.old.roots.classes }
    requires statics { length (statics program.now.classes) ≤ length roots.old.roots.statics }
    requires numbers { NumbersOnly program.now class }
    ensures begun { OnOk result (roots.new ≡ with_roots roots.old
        (begun program.now class roots.old.roots)) }
    ensures refused { OnErr result (roots.new ≡ roots.old) }
    ensures deep { is_ok result ≡ has_room roots.old.limit roots.old.roots.frames 0 }
{
    roots.enter_init(class)?;
    roots.set_state(class, ClassState::Busy);
    set_own(program, roots, class);
    Ok(())
}

/// Gives the static fields of a class that have constants their values.
fn set_own(program: &Program, roots: &mut Roots, class: u32)
    requires { length (statics program.now.classes) ≤ length roots.old.roots.statics }
    ensures { roots.new ≡ with_roots roots.old (fold (set_initial program.now) roots.old.roots
        (own_statics program.now class)) }
{
    let count = program.static_count();
    for slot in 0..count {
        let owner = program.static_class(slot);
        if owner == class {
            set_one(program, roots, slot);
        }
    }
}

/// Gives a static field the value of its constant, if that is a number.
fn set_one(program: &Program, roots: &mut Roots, slot: u32)
    requires there { slot < length (statics program.now.classes) }
    requires held { slot < length roots.old.roots.statics }
    ensures { roots.new ≡ with_roots roots.old (set_initial program.now roots.old.roots slot) }
{
    if let Named::Whole(value) = program.static_initial(slot) {
        let value = kept_value(program.static_basic(slot), value);
        roots.set_static(slot, value);
    }
}
