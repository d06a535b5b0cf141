// The steps that make an object or an array.
ghost use Rattle.std.specs.Prelude.{◌≡◌, ◌∷◌, ℕ, List, pos, slice_get, true, Some};
ghost use Rattle.cb_link.specs.Calls.{class_of_kind};
ghost use Rattle.cb_link.specs.declared.named.Named.TheVariants as meanings;
ghost use Rattle.cb_machine.specs.Creating.{makes_arrays, makes_object, site_number};
ghost use Rattle.cb_machine.specs.Standing.{Now, named_here};
ghost use Rattle.cb_plain.specs.declared.value.Value.{Value};
ghost use Rattle.cb_plain.specs.declared.value.Value.TheVariants.{Int};
ghost use Rattle.cb_act.specs.Going.{is_ready};
ghost use Rattle.cb_interp.specs.Making.{makes_array, makes_one};
ghost use Rattle.cb_act.specs.Steps.{StandsBefore};

/// The step of a machine that stands at a `new` of a class that may be used makes one object at its site, and that of one that stands at a
/// `newarray` or `anewarray` of a size that isn't negative makes one array.
pub fn making_as_said()
    ensures object { (now : Now) (pc kind class site : ℕ) → StandsBefore now pc → named_here now
        ≡ meanings.Kind kind → class_of_kind now.machine.program kind ≡ Some class
        → is_ready (slice_get now.state.roots.classes class) ≡ true
        → site_number now.machine.program now.frame.method now.frame.pc 0 ≡ Some site
        → makes_object now ≡ Some (makes_one now.machine now.state site pc) }
    ensures array { (now : Now) (pc site size : ℕ) (rest : List Value) → StandsBefore now pc
        → now.frame.stack ≡ Int (pos size) ∷ rest
        → site_number now.machine.program now.frame.method now.frame.pc 0 ≡ Some site
        → makes_arrays now 1 ≡ Some (makes_array now.machine now.state site size pc) }
{}
