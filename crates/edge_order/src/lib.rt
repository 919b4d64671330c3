//! An order of the nodes of a graph in which every edge goes forward, or the first node that leads back to itself; and
//! what some nodes lead to.
//!
//! A graph is a list of the nodes that each node's edges lead to. Knows nothing of what nodes are.
#![tactic(auto)]

mod orders;
mod reaching;
mod stages;

pub use orders::{Order, find_order};
pub use reaching::reach;
