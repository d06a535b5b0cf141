//! Loading (JVMS §5.3): the classes that a main class needs, found in a folder one after the other, and the program that they are with the
//! library's, by `cb_link`.
//!
//! It promises that a program is loaded exactly as the definitions say, or refused for the first reason in the order of looking. `specs/` has a
//! file for each notion: the names that a class mentions (`Names`), the closure (`Closure`), loading and its refusals (`Loading`), where files
//! stand (`Files`). It doesn't promise that memory is to be had; that no call always gives up is shown by cases of `cb_cases`.
#![tactic(auto)]

mod class_names;
mod class_of;
mod entries;
mod file;
mod law;
mod linking;
mod loading;
mod names;
mod path;
mod text_names;
mod text_uses;
mod uses;

pub use law::{
    class_names_once, loaded_limits, loaded_supported, loaded_well_formed, needed_classes,
    one_loading, small_closures,
};
pub use linking::link;
pub use path::path_of;
