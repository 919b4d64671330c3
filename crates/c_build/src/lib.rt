//! Builds the tree of a C text from the steps of its derivation, without recursion: each action takes values off a stack and
//! puts one there.
#![tactic(auto)]

mod declarations;
mod dispatch;
mod expressions;
mod files;
mod statements;
mod steps;
mod tokens;

pub use dispatch::act;
pub use steps::build;
