//! Updates, declarations, and stores through an index, unwound under a guard.
#![tactic(auto)]

mod arrays;
mod declarations;
mod elements;
mod operators;
mod stores;
mod updates;

pub use declarations::declare;
pub use elements::{bounded, put_at};
pub use stores::store;
pub use updates::update;
