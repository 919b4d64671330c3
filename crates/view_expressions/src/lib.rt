//! Terms of flat expressions in the view that a row of terms stands for.
#![tactic(auto)]

mod values;

pub use values::value;
