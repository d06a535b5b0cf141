// The law of listings.
ghost use Rattle.std.specs.Prelude.{◌≡◌, ℕ, List, None};
ghost use Rattle.cb_asm_list.specs.Listing.{listing};
ghost use Rattle.cb_asm_record.specs.Grammar.{Assembles};
ghost use Rattle.cb_classfile.specs.Profile.{unsupported};
ghost use Rattle.cb_classfile.specs.declared.class.ClassFile.{ClassFile as AnyClass};

/// Where a text assembles to a record that has nothing the machine leaves out, the record's listing does.
pub fn listing_assembles()
    ensures { (text : List ℕ) (class : AnyClass) → Assembles text class → unsupported class ≡ None → Assembles (listing class) class }
{}
