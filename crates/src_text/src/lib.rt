//! Sources as text: places in them, what is wrong at a place, and names.
//!
//! Knows nothing of either language's grammar, and nothing of files.
#![tactic(auto)]

pub mod digits;
pub mod kind;
pub mod name;
pub mod place;
pub mod refusal;

pub use digits::{DigitFault, read_digits};
pub use kind::Kind;
pub use name::{Name, NameList};
pub use place::place_of;
pub use refusal::{Lang, Place, Refusal};
