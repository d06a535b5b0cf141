// Laws of the table.
ghost use Rattle.std.specs.Prelude.{◌≡◌, ℕ, Contains, List, drop, [], ◌∷◌, Some, codes, length, slice_get, take};
ghost use Rattle.std.specs.List.{AllPass};
ghost use Rattle.cb_library.specs.declared.native.Native.{Native};
ghost use Rattle.cb_library.specs.CoreClasses.{core_classes};
ghost use Rattle.cb_library.specs.Flags.{final};
ghost use Rattle.cb_library.specs.Names.{enum, object, throwable};
ghost use Rattle.cb_library.specs.Questions.{
  bodies,
  class_names,
  fits_flags,
  fits_parents,
  has_constructors,
  instructions,
  is_abstract_class,
  is_final,
  is_framed,
  is_interface,
  methods,
  methods_with,
  names_a_row,
  natives,
  numbers_of,
  parents_of,
};
ghost use Rattle.cb_library.specs.Rows.{CoreClass, Method};

/// There are fifty classes, numbered from 0 to 49 by their places. A name is that of one of them at most, and the
/// superclass and the interfaces of each stand before it. All but Object have a superclass, which is neither final nor an
/// interface.
pub fn fifty_classes()
    ensures count { length core_classes ≡ 50 }
    ensures one_name { (one other : ℕ) (name : List ℕ) → slice_get class_names one ≡ Some name → slice_get class_names other ≡ Some name
        → one ≡ other }
    ensures parents { (number : ℕ) (class : CoreClass) (parent : List ℕ) → slice_get core_classes number ≡ Some class
        → Contains (parents_of class) parent → Contains (take number class_names) parent }
    ensures hierarchy { AllPass fits_parents core_classes }
{}

/// A class has one method of a name and descriptor at most.
pub fn one_method()
    ensures { (number one other : ℕ) (class : CoreClass) (first second : Method) → slice_get core_classes number ≡ Some class
        → slice_get class.methods one ≡ Some first → slice_get class.methods other ≡ Some second
        → first.name ≡ second.name → first.descriptor ≡ second.descriptor → one ≡ other }
{}

/// Each native stands at one place of the table and no other.
pub fn natives_once()
    ensures { (native : Native) → (place : ℕ) × (slice_get natives place ≡ Some native)
        × ((other : ℕ) → slice_get natives other ≡ Some native → other ≡ place) }
{}

/// Which classes are interfaces, final, and abstract beside the interfaces, and which methods are final.
pub fn marked()
    ensures interfaces { numbers_of is_interface ≡ 1 ∷ 2 ∷ 3 ∷ 4 ∷ 5 ∷ 6 ∷ 7 ∷ [] }
    ensures finals { numbers_of is_final ≡ 8 ∷ 9 ∷ 10 ∷ 11 ∷ 15 ∷ 16 ∷ 17 ∷ 18 ∷ 19 ∷ 21 ∷ [] }
    ensures abstracts { numbers_of is_abstract_class ≡ 13 ∷ 14 ∷ 20 ∷ [] }
    ensures final_methods { methods_with final
        ≡ (object, codes "getClass", codes "()Ljava/lang/Class;")
        ∷ (enum, codes "name", codes "()Ljava/lang/String;")
        ∷ (enum, codes "ordinal", codes "()I")
        ∷ (enum, codes "equals", codes "(Ljava/lang/Object;)Z")
        ∷ (enum, codes "hashCode", codes "()I")
        ∷ (enum, codes "compareTo", codes "(Ljava/lang/Enum;)I")
        ∷ (throwable, codes "addSuppressed", codes "(Ljava/lang/Throwable;)V")
        ∷ (throwable, codes "getSuppressed", codes "()[Ljava/lang/Throwable;")
        ∷ [] }
{}

/// What the instructions of the bodies name is in the table: classes, and fields and methods of the very class named.
/// Each branch goes to an instruction that has a frame.
pub fn sound_bodies()
    ensures names { AllPass names_a_row instructions }
    ensures branches { AllPass is_framed bodies }
{}

/// A method has the flags of what it is.
pub fn flags_of_methods()
    ensures { AllPass fits_flags methods }
{}

/// Throwable and the classes behind it each have the four constructors.
pub fn four_constructors()
    ensures { AllPass has_constructors (drop 22 core_classes) }
{}
