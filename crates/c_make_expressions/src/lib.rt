//! Builds values of tokens and parts of expressions on a stack.
//!
//! Each `make_X` carries out the action X of `c_actions`: `Ok(true)` with the stack as `after_X` has it, or `Ok(false)` where the
//! values that it takes are not on top; the stack is then of no more use.
#![tactic(auto)]

mod characters;
mod expression_actions;
mod token_actions;

pub use expression_actions::{
    make_add_expression, make_add_path_member, make_binary, make_cast, make_conditional,
    make_element, make_no_expression, make_no_expressions, make_object, make_one_expression,
    make_parentheses, make_path, make_read, make_some_expression, make_unary,
};
pub use token_actions::{
    make_assignment_mark, make_binary_mark, make_character, make_declared, make_false,
    make_integer, make_name, make_place, make_sign, make_static, make_step_mark, make_true,
    make_unary_mark, make_word_type,
};
