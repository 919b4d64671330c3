//! Builds the tree of a Verilog text from the steps of its derivation, without recursion: each action takes values off a
//! stack and puts one there.
#![tactic(auto)]

mod connections;
mod declarations;
mod expressions;
mod modules;
mod statements;
mod steps;

pub use steps::build;
