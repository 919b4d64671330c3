//! The drivers and the clocked processes of one instance of a module whose text is without offence.
//!
//! Continuous assignments and processes without `posedge` are drivers, in the order of the text; those with `posedge` are
//! clocked. What connects an instance to another isn't here.
#![tactic(auto)]

pub mod drivers;
pub mod processes;

pub use drivers::module_drivers;
pub use processes::module_clocked;
