//! What may be wrong with the statements of a process, loops unrolled.
//!
//! Of the offences that are noted the first by place, then number, is kept. Copies of a loop's body go back in the text, so a
//! later turn may break a rule at an earlier place.
#![tactic(auto)]

pub mod cases;
pub mod heads;
pub mod statements;

pub use statements::statement;
