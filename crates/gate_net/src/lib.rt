//! Nets of gates, and the clauses whose models are their values.
//!
//! A net knows nothing of what its edges stand for. `Net` builds it, node by node, and
//! `to_clauses` turns it into clauses for a solver.
#![tactic(auto)]

mod clauses;
mod net;

pub use clauses::to_clauses;
pub use net::{Edge, Gate, Net, Node};
