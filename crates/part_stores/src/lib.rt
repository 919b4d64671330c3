//! Stores of one term to several parts of signals, side by side.
//!
//! The parts take its bits from the left (IEEE 1364-2005, 5.1.14 and 9.2). Nothing here knows of targets, expressions or
//! statements.
#![tactic(auto)]

mod stores;

pub use stores::store_all;
