//! The first values of registers: what `initial` processes and declarations write before the first frame.
//!
//! The text has been looked at for offences before; what one leaves without a value is 0 here.
#![tactic(auto)]

pub mod values;
pub mod writes;

pub use values::FirstWrite;
pub use writes::{first_of, module_writes};
