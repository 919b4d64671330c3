//! Expressions and simple statements, unwound under a guard.
#![tactic(auto)]

mod inits;
mod returns;
mod simple;
mod stores;

pub use inits::init_value;
pub use returns::{called, give_back};
pub use simple::{Activation, assert, assume, value};
pub use stores::store;
