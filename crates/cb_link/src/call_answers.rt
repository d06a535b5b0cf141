// What a machine asks of methods that are run.
ghost use Rattle.std.specs.Prelude.{◌≡◌, ◌<◌, length, slice_get, IfSome, Some};
ghost use Rattle.cb_link.specs.Calls.{IsOneOf, class_of_kind, initial_parents, initialiser, or_object, select};

use crate::Program;
use cb_hierarchy::Selected;

/// The number of java/lang/Object.
const OBJECT: u32 = 0;

impl Program {
    /// The method that is selected on an object of a kind, where this one was resolved (JVMS §6.5 invokevirtual,
    /// invokeinterface). An array's methods are those of Object.
    pub fn select(&self, kind: u32, method: u32) -> Selected
        requires kind { kind < length self.now.kinds }
        requires method { method < length self.now.methods }
        ensures found { result ≡ select self.now kind method }
        ensures within { IsOneOf (length self.now.methods) result }
    {
        self.tables
            .members
            .calls
            .selection
            .select(self.object_class(kind), method)
    }

    /// How many classes are initialised before a class (JVMS §5.5, step 7).
    pub fn parent_count(&self, class: u32) -> usize
        requires { class < length self.now.classes }
        ensures { result ≡ length (initial_parents self.now.classes class) }
    {
        self.tables.members.calls.parents.get(class as usize).len()
    }

    /// The number of a class that is initialised before a class, in order.
    pub fn parent(&self, class: u32, place: usize) -> u32
        requires class { class < length self.now.classes }
        requires place { place < length (initial_parents self.now.classes class) }
        ensures found { slice_get (initial_parents self.now.classes class) place ≡ Some result }
        ensures within { result < length self.now.classes }
    {
        *self
            .tables
            .members
            .calls
            .parents
            .get(class as usize)
            .get(place)
    }

    /// The number of the initialiser that a class declares, if it declares one (JVMS §2.9).
    pub fn initialiser(&self, class: u32) -> Option<u32>
        requires { class < length self.now.classes }
        ensures found { result ≡ initialiser self.now.classes class }
        ensures within { IfSome result (λ method. method < length self.now.methods) }
    {
        *self.tables.members.calls.initialisers.get(class as usize)
    }

    /// The number of the class whose methods objects of a kind have.
    fn object_class(&self, kind: u32) -> u32
        requires { kind < length self.now.kinds }
        ensures { result ≡ or_object (class_of_kind self.now kind) }
    {
        match self.class_of_kind(kind) {
            Some(class) => class,
            None => OBJECT,
        }
    }
}
