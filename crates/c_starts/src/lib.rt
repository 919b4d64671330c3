//! Where each part of a C tree begins: the place of its first token.
#![tactic(auto)]

mod declarations;
mod expressions;
mod statements;

pub use declarations::{
    declarator_start, external_start, globals_start, head_start, initializer_start, local_start,
    member_declarator_start, member_start, parameter_start, result_start, tree_start,
};
pub use expressions::{call_start, expression_start, object_start, path_start};
pub use statements::{label_start, simple_start, statement_start};
