//! One law: the listing of a record that a text assembled to assembles to it. The definitions are those of `cb_asm_record` and `cb_asm_list`.
#![tactic(auto)]

mod law;

pub use law::listing_assembles;
