// The number of a member by its class and signature.
ghost use Rattle.std.specs.Prelude.{◌≡◌, ◌<◌, ◌^◌, length, map, IfOk};
ghost use Rattle.std.specs.HashMap.{get};
ghost use Rattle.cb_hierarchy.specs.InnerIndex.{IsIndexOf, same_member};

use crate::Declared;
use cb_plain::OutOfMemory;
use std::alloc::Global;
use std::collections::HashMap;

/// What a class declares.
pub(crate) trait Member {
    ghost use Rattle.cb_hierarchy.specs.declared.member.Declared.{Declared};

    ghost declared: { Self → Declared };

    fn declared(&self) -> Declared
        ensures { result ≡ declared self.now };
}

/// The numbers of members, by their classes and signatures.
#[derive(Debug, Drop)]
pub(crate) struct Index {
    numbers: HashMap<Declared, u32>,
}

impl Index {
    /// The index of members. Takes expected time in their number.
    pub(crate) fn of<T: Member>(alloc: Global, members: &[T]) -> Result<Self, OutOfMemory>
        requires { length members.now < 2 ^ 32 }
        ensures { IfOk result (λ index. IsIndexOf (map T.declared members.now) (get same_member index.numbers)) }
    {
        let mut numbers = HashMap::new(alloc);
        let mut number = 0;
        for member in members {
            let declared = member.declared();
            if !numbers.contains_key(&declared) {
                numbers.insert(declared, number)?;
            }
            number += 1;
        }
        Ok(Index { numbers })
    }

    /// The number of the first member of a signature that a class declares.
    pub(crate) fn number(&self, class: u32, signature: u32) -> Option<u32>
        ensures { result ≡ get same_member self.now.numbers (record { class = class; signature = signature }) }
    {
        self.numbers.get(&Declared { class, signature }).copied()
    }
}
