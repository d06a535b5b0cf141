// The parts of a resolver by which fields and methods are asked for.
ghost use Rattle.std.specs.Prelude.{◌≡◌};
ghost use Rattle.cb_kinds.specs.Texts.{number_of_pair};
ghost use Rattle.cb_link.specs.Numbers.{hierarchy, method_texts, ranked_fields, ranked_methods};

use crate::resolver::Resolver;
use cb_hierarchy::{FieldTable, Hierarchy, MethodTable};

impl Resolver {
    /// The classes as numbers.
    pub(crate) fn hierarchy(&self) -> &Hierarchy
        ensures { result.now ≡ hierarchy self.now }
    {
        &self.hierarchy
    }

    /// The fields as numbers.
    pub(crate) fn fields(&self) -> &FieldTable
        ensures { result.now ≡ ranked_fields self.now }
    {
        &self.members.fields
    }

    /// The methods as numbers.
    pub(crate) fn methods(&self) -> &MethodTable
        ensures { result.now ≡ ranked_methods self.now }
    {
        &self.members.methods
    }

    /// The number of the first method of a name and a descriptor, which is the signature of all that have both.
    pub(crate) fn method_signature(&self, name: &[u16], descriptor: &[u16]) -> Option<u32>
        ensures { result ≡ number_of_pair (method_texts self.now) (name.now, descriptor.now) }
    {
        self.texts.methods.number(name, descriptor)
    }
}
