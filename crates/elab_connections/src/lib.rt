//! The drivers that connect the ports of an instance to the module round it (IEEE 1364-2005, 12.3).
//!
//! The text has been looked at for offences before. A connection that one leaves open drives nothing, or an input.
#![tactic(auto)]

mod drivers;
mod targets;

pub use drivers::connection_drivers;
pub use targets::output_target;
