//! The actions of a parse tree: where a grammar says that a language does something with what was read.
//!
//! A production may be *marked* with an action, as in a syntax-directed translation scheme (Aho, Lam, Sethi and Ullman,
//! 'Compilers', 5.4). Each action takes values of known sorts off a stack and puts one on it. That a table's productions
//! fit this is a test that a proof computes once: then no action of a text lacks its values. A second test says which
//! kind of token each action comes right after.
#![tactic(auto)]

pub mod examples;
mod step;

pub use step::{Step, steps};
