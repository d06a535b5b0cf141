// Records as texts.
ghost use Rattle.std.specs.Prelude.{◌≡◌, ℕ, List, IfOk, None, string_bytes};
ghost use Rattle.cb_asm_list.specs.Listing.{listing as listing_of};
ghost use Rattle.cb_asm_record.specs.Grammar.{Assembles};
ghost use Rattle.cb_classfile.specs.Class.{IsWellFormed};
ghost use Rattle.cb_classfile.specs.Profile.{unsupported};

use cb_asm_back::listing_assembles;
use cb_classfile::ClassFile;
use cb_plain::OutOfMemory;
use std::alloc::Global;

/// The listing of a record, which is well formed and has nothing that the machine leaves out. Where a text assembled to the
/// record, its listing does. `OutOfMemory` where no memory was to be had. Takes time in the size of the record and of the
/// listing, in which each frame stands in full.
pub fn list(alloc: Global, class: &ClassFile) -> Result<String, OutOfMemory>
    requires well_formed { IsWellFormed class.now }
    requires supported { unsupported class.now ≡ None }
    ensures listed { IfOk result (λ text. string_bytes text ≡ listing_of class.now) }
    ensures back { IfOk result (λ text. (source : List ℕ) → Assembles source class.now → Assembles (string_bytes text) class.now) }
{
    listing_assembles();
    cb_asm_list::list(alloc, class)
}
