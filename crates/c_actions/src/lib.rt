//! What the actions of the grammar of C do, and the tree that a text has.
//!
//! Each action takes values off a stack and puts one there (`specs/Acts.antt`). What it means that a text has a tree is
//! `IsCSource` in `specs/Reading.antt`: its tokens have a derivation in the grammar of the C profile, and the actions of
//! that, in order, build the tree.
#![tactic(auto)]

ghost use Rattle.c_actions.specs.Laws.{TreeLaw};

pub mod actions;

pub use actions::{
    Action, DeclarationAction, ExpressionAction, FileAction, StatementAction, TokenAction,
    action_of,
};

/// The actions of each derivation build a tree, and a text has no other. It does nothing: its contract is a law.
pub fn tree_law()
    ensures { TreeLaw }
{}
