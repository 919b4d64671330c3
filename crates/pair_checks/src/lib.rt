//! For pairs that are made by hand: tests of whether a flat module is well-formed, and whether what binds a program's mirror to it
//! is; and terms that are added where they fit.
#![tactic(auto)]

mod adding;
mod links;
mod lists;
mod modules;

pub use adding::add_term;
pub use links::is_bound;
pub use modules::is_module;
