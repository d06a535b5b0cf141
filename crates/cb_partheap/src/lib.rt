//! Objects in the parts of a heap of fixed size: `PartHeap`, which contracts see as its words by part, and as the list of its objects by serial.
//!
//! The words of a part are whole objects one behind the other. An object is three words of a header, kind with length, serial, and site with
//! mark, and the words of its contents: numbers, or places of objects, 0 for none. A place is the object's part and where its first word stands
//! in the region, so that reading a word that lies in the block of the header takes no table. Each object lies in the part of its site, and
//! references stay in their part or follow an edge.
//!
//! It promises the calls of the trait `Store` but for the two that collect, with the trait's contracts; that room is granted exactly where there
//! is so much beside the objects; and that what isn't named by a call stays as it is, word by word. Nothing takes memory but `make`. The free functions
//! on words ask only that a header stands at the place, so that they serve while the heap isn't whole.
//!
//! `specs/` says in this order: objects as words (`Words`); where they begin, and their places (`Spots`); headers at places (`Headers`); what is
//! seen of a heap (`Heaps`), and what holds of it (`Whole`); what a new object adds (`Added`); heaps without objects (`Made`); what places tell (`Laws`);
//! what marks are, and when they are those of what is reached of a set of parts (`Marks`); and what that says of a collection (`MarkLaws`).
//!
//! No clause says that memory is to be had: that `PartHeap::make` and `MarkStack::make` don't always give up is shown by tests alone.
#![tactic(auto)]

mod add;
mod asking;
mod edge_grid;
mod law;
mod mark_stack;
mod part_heap;
mod room;
mod shape;
mod words;

pub use law::{headers_tell, marks_take, places_tell, stay_unmarked, two_objects};
pub use mark_stack::MarkStack;
pub use part_heap::PartHeap;
pub use shape::{holds, may_hold, shape_at};
pub use words::{
    holds_reference, mark_at, move_placed, object_words, part_at, place_at, place_past,
    set_mark_at, set_word_at, word_at,
};
