// The constant pool (JVMS §4.1, §4.4).
ghost use Rattle.std.specs.Prelude.{◌≡◌, ◌↔◌, ◌+◌, ◌^◌, ◌<◌, ◌++◌, ℕ, List, [], length, IfOk, IsErrOf, IsTrue, MatchResult, OnErr, OnOk, option_copied};
ghost use Rattle.std.specs.Iterator.Runs.{EveryRun, ItemsMapTo};
ghost use Rattle.std.specs.Slice.Iter.{iter_rest, iter_steps};
ghost use Rattle.cb_text.specs.declared.constant.Constant.{Constant as AnyConstant};
ghost use Rattle.cb_text.specs.Pool.{BeginsWithPool, IsPool, SpellsPool, constant_at, pool_bytes, with_gap};

use crate::admitting::is_admitted;
use crate::constants::{constants_of, push_with_gap};
use crate::indices::{are_indexed, entry_at};
use crate::numbers::u2_at;
use crate::writing::push_constants;
use crate::{Constant, OutOfMemory, PoolFault};
use std::alloc::Global;
use std::marker::Model;
use std::slice;

/// A constant pool, read from bytes or made constant by constant. Contracts see it as its constants in order with the
/// gaps, the first of which has the index 1.
#[derive(Debug, Drop)]
pub struct Pool {
    constants: Vec<Constant>,
}

impl Model for Pool {
    ghost use Rattle.std.specs.Prelude.{List};
    ghost use Rattle.cb_text.specs.declared.constant.Constant.{Constant as AnyConstant};
    ghost use Rattle.cb_text.specs.Pool.{IsPool};

    ghost Value = { List AnyConstant };

    ghost view = { λ pool. pool.constants.items };

    ghost invariant = { λ pool. IsPool pool.constants.items };
}

impl Pool {
    /// A pool without constants. It takes memory from `alloc` as constants are added.
    pub fn new(alloc: Global) -> Self
        ensures { result ≡ [] }
    {
        Pool {
            constants: Vec::new(alloc),
        }
    }

    /// Whether the constants of the pool with this one, and behind a `Long` or `Double` its gap, are those of a pool:
    /// there is room for its index or two, a text has fewer than 65536 bytes, and each index names an entry of the tag
    /// that is asked for (JVMS §4.4). A `Gap` alone never is. Takes time in the length of a text, and constant time for
    /// any other constant.
    pub fn admits(&self, constant: &Constant) -> bool
        ensures { IsTrue result ↔ IsPool (self.now ++ with_gap constant.now) }
    {
        is_admitted(&self.constants, constant)
    }

    /// Adds a constant that the pool admits, and behind a `Long` or `Double` its gap, and gives the constant's index.
    /// `OutOfMemory` where no memory was to be had: the pool is then as it was.
    pub fn push(&mut self, constant: Constant) -> Result<u16, OutOfMemory>
        requires { IsPool (self.old ++ with_gap constant) }
        ensures ok { IfOk result (λ index. (self.new ≡ self.old ++ with_gap constant)
            × (index ≡ length self.old + 1)) }
        ensures err { OnErr result (self.new ≡ self.old) }
    {
        let index = self.len();
        push_with_gap(&mut self.constants, constant)?;
        Ok(index)
    }

    /// The number that stands in the file as `constant_pool_count`, one more than the greatest index (JVMS §4.1).
    pub fn len(&self) -> u16
        ensures { result ≡ length self.now + 1 }
    {
        self.constants.len() as u16 + 1
    }

    /// The constant at an index, which count from 1, or `None` where the number is no index of the pool. The index
    /// behind a `Long` or `Double` has a `Gap`. Takes constant time.
    pub fn get(&self, index: u16) -> Option<&Constant>
        ensures { option_copied result ≡ constant_at self.now index }
    {
        entry_at(&self.constants, index)
    }

    /// The constants in order, the first of which has the index 1, with the gaps: those of a pool.
    pub fn constants(&self) -> &[Constant]
        ensures constants { result.now ≡ self.now }
        ensures pool { IsPool self.now }
    {
        self.constants.as_slice()
    }

    /// The bytes of the pool, from its count on. `OutOfMemory` where no memory was to be had. Takes time in the
    /// number of bytes.
    pub fn encode(&self, alloc: Global) -> Result<Vec<u8>, OutOfMemory>
        ensures pool { IfOk result (λ bytes. SpellsPool bytes.items self.now) }
        ensures exact { IfOk result (λ bytes. bytes.items ≡ pool_bytes self.now) }
    {
        let _ = &self.constants;
        let mut out = Vec::new(alloc);
        self.encode_into(&mut out)?;
        Ok(out)
    }

    /// Adds the bytes that `encode` gives behind those that are there. `OutOfMemory` where no memory was to be had: a
    /// part of them may then stand there. Takes time in the number of bytes.
    pub fn encode_into(&self, bytes: &mut Vec<u8>) -> Result<(), OutOfMemory>
        ensures { OnOk result (bytes.new.items ≡ bytes.old.items ++ pool_bytes self.now) }
    {
        bytes.extend_from_slice(&self.len().to_be_bytes())?;
        push_constants(bytes, &self.constants)
    }
}

/// Walks the constants in order, with the gaps.
impl<'a> IntoIterator for &'a Pool {
    type Item = &'a Constant;

    type IntoIter = slice::Iter<'a, Constant>;

    ghost into_iter_gives = { λ pool it. (iter_rest it ≡ pool.now) × (length (iter_rest it) < 2 ^ 64)
        × EveryRun (iter_steps {A = AnyConstant}) (λ p. ItemsMapTo p (λ constant. constant.now) (iter_rest p.from)) };

    fn into_iter(self) -> slice::Iter<'a, Constant> {
        self.constants.iter()
    }
}

/// The constant pool at the front of the bytes, and how many bytes it takes (JVMS §4.4). `BadPool` where no pool is
/// a front of them, `OutOfMemory` where no memory was to be had. Takes time in the number of bytes.
pub fn read_pool(alloc: Global, bytes: &[u8]) -> Result<(Pool, usize), PoolFault>
    ensures pool { IfOk result (λ read. BeginsWithPool bytes.now read.0 read.1) }
    ensures exact { (constants : List AnyConstant) (end : ℕ) → BeginsWithPool bytes.now constants end
        → MatchResult result (λ read. (read.0 ≡ constants) × (read.1 ≡ end))
        (λ fault. fault ≡ PoolFault.OutOfMemory) }
    ensures bad { IsErrOf result PoolFault.BadPool ↔ ((¬ IsErrOf result PoolFault.OutOfMemory)
        × ((constants : List AnyConstant) (end : ℕ) → BeginsWithPool bytes.now constants end → ⊥)) }
{
    let (constants, end) = pool_at(alloc, bytes)?;
    Ok((Pool { constants }, end))
}

/// At most one pool is a front of some bytes.
pub fn one_pool()
    ensures { (bytes : List ℕ) (one other : List AnyConstant) (end last : ℕ)
        → BeginsWithPool bytes one end → BeginsWithPool bytes other last → (one ≡ other) × (end ≡ last) }
{}

/// The constants of the pool at the front of the bytes, and how many bytes it takes.
fn pool_at(alloc: Global, bytes: &[u8]) -> Result<(Vec<Constant>, usize), PoolFault>
    ensures { MatchResult result (λ read. IsPool read.0.items × BeginsWithPool bytes.now read.0.items read.1)
        (λ fault. (constants : List AnyConstant) (end : ℕ) → BeginsWithPool bytes.now constants end
        → fault ≡ PoolFault.OutOfMemory) }
{
    let Some((count, rest)) = u2_at(bytes) else {
        return Err(PoolFault::BadPool);
    };
    let Some(length) = count.checked_sub(1) else {
        return Err(PoolFault::BadPool);
    };
    let (constants, rest) = constants_of(alloc, usize::from(length), rest)?;
    if !are_indexed(&constants) {
        return Err(PoolFault::BadPool);
    }
    let end = bytes.len() - rest.len();
    Ok((constants, end))
}
