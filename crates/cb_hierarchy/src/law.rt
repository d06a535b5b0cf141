// What the definitions say of small hierarchies.
ghost use Rattle.std.specs.Prelude.{◌≡◌, [], ◌∷◌, Some, None};
ghost use Rattle.cb_hierarchy.specs.Examples.{apart, beside, between, diamond, extended, has_abstract, has_field, has_package, has_private, has_public, has_static, inheriting};
ghost use Rattle.cb_hierarchy.specs.Initial.{initialised_before};
ghost use Rattle.cb_hierarchy.specs.Layout.{layout};
ghost use Rattle.cb_hierarchy.specs.Orders.{lookup_order};
ghost use Rattle.cb_hierarchy.specs.Resolution.{resolved_field, resolved_method};
ghost use Rattle.cb_hierarchy.specs.Selection.{selected};
ghost use Rattle.cb_hierarchy.specs.declared.selected.Selected.TheVariants as chosen;

/// Which method is selected where one of an interface was resolved (JVMS §6.5 invokeinterface). Two default methods of unrelated
/// interfaces are several; one in a subinterface overrides the other; a class's own method overrides either; that of a
/// superclass is before that of a superinterface, also where it is abstract, but not where it is private or static.
pub fn interface_selections()
    ensures several { selected diamond (has_public 1 ∷ has_public 2 ∷ []) 3 0 ≡ chosen.Several }
    ensures one_abstract { selected diamond (has_abstract 1 ∷ has_public 2 ∷ []) 3 0 ≡ chosen.Method 1 }
    ensures subinterface { selected extended (has_public 1 ∷ has_public 2 ∷ []) 3 0 ≡ chosen.Method 1 }
    ensures abstracted { selected extended (has_public 1 ∷ has_abstract 2 ∷ []) 3 0 ≡ chosen.Abstract }
    ensures own { selected diamond (has_public 1 ∷ has_public 2 ∷ has_public 3 ∷ []) 3 0 ≡ chosen.Method 2 }
    ensures superclass { selected beside (has_public 1 ∷ has_public 2 ∷ []) 3 0 ≡ chosen.Method 1 }
    ensures hidden { selected beside (has_public 1 ∷ has_abstract 2 ∷ []) 3 0 ≡ chosen.Abstract }
    ensures private_skipped { selected beside (has_public 1 ∷ has_private 2 ∷ []) 3 0 ≡ chosen.Method 0 }
    ensures static_skipped { selected beside (has_public 1 ∷ has_static 2 ∷ []) 3 0 ≡ chosen.Method 0 }
{}

/// Which method is selected where one of a class was resolved (JVMS §5.4.5): a method of another package doesn't override one
/// that is neither public nor protected nor private, unless one between does that it overrides. A private method neither
/// overrides nor is overridden.
pub fn class_selections()
    ensures overridden { selected apart (has_public 1 ∷ has_public 2 ∷ []) 2 0 ≡ chosen.Method 1 }
    ensures other_package { selected apart (has_package 1 ∷ has_public 2 ∷ []) 2 0 ≡ chosen.Method 0 }
    ensures between { selected between (has_package 1 ∷ has_public 2 ∷ has_public 3 ∷ []) 3 0 ≡ chosen.Method 2 }
    ensures not_between { selected between (has_package 1 ∷ has_package 2 ∷ has_public 3 ∷ []) 3 0 ≡ chosen.Method 1 }
    ensures private_kept { selected apart (has_private 1 ∷ has_public 2 ∷ []) 2 0 ≡ chosen.Method 0 }
    ensures private_own { selected apart (has_public 1 ∷ has_private 2 ∷ []) 2 0 ≡ chosen.Method 0 }
{}

/// Where members are found (JVMS §5.4.3.2 to §5.4.3.4): a field of a superinterface is before one of the superclass, a method of
/// the superclass before one of a superinterface, and an interface has the public methods of Object.
pub fn resolutions()
    ensures order { lookup_order inheriting 5 ≡ 5 ∷ 2 ∷ 1 ∷ 0 ∷ 3 ∷ 4 ∷ [] }
    ensures field { resolved_field beside (has_field 1 0 ∷ has_field 2 0 ∷ []) 3 0 ≡ Some 0 }
    ensures method { resolved_method beside (has_public 1 ∷ has_public 2 ∷ []) 0 3 0 ≡ Some 1 }
    ensures inherited { resolved_method inheriting (has_public 1 ∷ []) 0 5 0 ≡ Some 0 }
    ensures several { resolved_method diamond (has_public 1 ∷ has_public 2 ∷ []) 0 3 0 ≡ Some 0 }
    ensures of_object { resolved_method beside (has_public 0 ∷ []) 0 1 0 ≡ Some 0 }
    ensures not_of_object { resolved_method beside (has_private 0 ∷ []) 0 1 0 ≡ None }
{}

/// What is initialised before a class (JVMS §5.5, step 7), of a superclass and of superinterfaces that declare bodies, also where
/// these are inherited; and an object's fields, those of the superclass first.
pub fn initial_classes()
    ensures inherited { initialised_before inheriting (has_public 1 ∷ has_abstract 2 ∷ has_abstract 3 ∷ []) 5 ≡ 4 ∷ 1 ∷ [] }
    ensures parents_first { initialised_before inheriting (has_public 2 ∷ has_public 1 ∷ has_public 3 ∷ []) 5 ≡ 4 ∷ 1 ∷ 2 ∷ 3 ∷ [] }
    ensures interface { initialised_before inheriting (has_public 1 ∷ []) 2 ≡ [] }
    ensures layout { layout inheriting (has_field 5 0 ∷ has_field 4 0 ∷ has_field 4 1 ∷ []) 5 ≡ 1 ∷ 2 ∷ 0 ∷ [] }
{}
