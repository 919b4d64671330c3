//! What the actions of the grammar of Verilog do, and the tree that a text has.
//!
//! Each action takes values off a stack and puts one there (`specs/Acts.antt`). What it means that a text has a tree is
//! `IsVerilogSource` in `specs/Reading.antt`: its tokens have a derivation in the grammar of the Verilog profile, and
//! the actions of that, in order, build the tree.
#![tactic(auto)]

ghost use Rattle.v_actions.specs.Laws.{TreeLaw};

pub mod actions;

pub use actions::{
    Action, ConnectionAction, DeclarationAction, ExpressionAction, ModuleAction, StatementAction,
    TokenAction, action_of,
};

/// The actions of each derivation build a tree, and a text has no other. It does nothing: its contract is a law.
pub fn tree_law()
    ensures { TreeLaw }
{}
