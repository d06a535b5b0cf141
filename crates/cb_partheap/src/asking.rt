// How many blocks there are, and how many are asked for.
ghost use Rattle.std.specs.Prelude.{◌≡◌, ◌+◌, ◌^◌, ◌≤◌, length, IsTrue};
ghost use Rattle.std.specs.List.{AllByRecursion};
ghost use Rattle.cb_heap.specs.Occupancy.{blocks, used, wanted};
ghost use Rattle.cb_partheap.specs.Heaps.{objects_in, part_of, settings_in};

use crate::PartHeap;
use crate::room::blocks_more;
use cb_plain::Request;

impl PartHeap {
    /// How many blocks the objects leave free.
    pub fn blocks_free(&self) -> u32
        ensures free { blocks (length self.now.memory.words) (used (part_of self.now.site_parts) (objects_in self.now)) + result ≡ self.now.memory.blocks }
        ensures bound { self.now.memory.blocks ≤ 2 ^ 20 }
    {
        self.words.blocks_free()
    }

    /// How many blocks what is asked for needs beside those that the objects take. Takes time in the square of the sites that are asked for.
    pub fn blocks_asked(&self, request: &Request) -> u128
        requires { AllByRecursion (λ want. IsTrue ((settings_in self.now).knows want.site)) request.now }
        ensures { blocks (length self.now.memory.words) (used (part_of self.now.site_parts) (objects_in self.now)) + result
            ≡ blocks (length self.now.memory.words) (λ part. used (part_of self.now.site_parts) (objects_in self.now) part + wanted (part_of self.now.site_parts) request.now part) }
    {
        let _blocks = self.words.blocks_free();
        blocks_more(&self.words, &self.site_parts, request)
    }
}
