//! Stores of objects: the trait `Store` over which a machine runs, and what roots and a store are seen as. Objects are named by places, and seen by
//! their serials, so that a store may move what it keeps and let go what nothing reaches.
//!
//! The trait promises that making room and collecting lose only what nothing reaches, that what is granted can be placed, and that words are read
//! and written as they are seen. The laws promise what follows from that for every store.
//!
//! `specs/` says in this order: which objects are kept (`Kept`) and of which shapes (`Shaped`); how places are read (`Reading`); what a store
//! is seen as (`Storage`); what a collection is (`Closed`); what is granted (`Grants`); what a store does beyond what every store does
//! (`Rules`); the words of the trait (`Store`); what a view stands for (`StandsFor`); strings that are placed with their characters over any
//! store (`Text`); references that follow what sites allow (`Follows`), and what a collection of some sites leaves (`Taking`); the room that
//! partitions take (`Occupancy`); and what holds of all stores (`Laws`), for whoever shows something of code over any store.
#![tactic(auto)]

mod law;
mod no_room;
mod store;
mod text;
mod text_sites;

pub use law::{
    closes_again, keeps_changes, keeps_reached, reaches_alike, reads_entries, reads_through,
    takes_collect,
};
pub use no_room::NoRoom;
pub use store::Store;
pub use text::place_text;
pub use text_sites::TextSites;
