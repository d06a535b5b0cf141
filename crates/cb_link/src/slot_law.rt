// Fields stand at their slots.
ghost use Rattle.std.specs.Prelude.{◌≡◌, ◌<◌, ℕ, List, false, length, slice_get, true, Some};
ghost use Rattle.std.specs.List.{Contains};
ghost use Rattle.cb_classfile.specs.declared.class.ClassFile.{ClassFile};
ghost use Rattle.cb_hierarchy.specs.Bad.{AreGood};
ghost use Rattle.cb_hierarchy.specs.Orders.{upwards};
ghost use Rattle.cb_hierarchy.specs.declared.member.Field.{Field};
ghost use Rattle.cb_link.specs.Numbers.{hierarchy, ranked_fields, ranked_methods};
ghost use Rattle.cb_link.specs.Slots.{object_fields, slot_of, statics};

/// A static field stands at its slot among the static ones. Where no class is bad, another field stands at its slot in the
/// objects of its class and of each class below, so that what is compiled against a superclass finds it there (JVMS §2.7).
pub fn slots_in_objects()
    ensures statics { (classes : List ClassFile) (number : ℕ) (field : Field) → slice_get (ranked_fields classes) number ≡ Some field
        → field.is_static ≡ true → slice_get (statics classes) (slot_of classes number) ≡ Some number }
    ensures objects { (classes : List ClassFile) (class number : ℕ) (field : Field) → AreGood (hierarchy classes) (ranked_methods classes)
        → class < length (hierarchy classes) → slice_get (ranked_fields classes) number ≡ Some field → field.is_static ≡ false
        → Contains (upwards (hierarchy classes) class) field.declared.class → slice_get (object_fields classes class) (slot_of classes number) ≡ Some number }
{}
