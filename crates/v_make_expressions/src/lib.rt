//! Actions that make values of tokens, expressions and selects of Verilog, as calls.
#![tactic(auto)]

mod bytes;
mod expression_actions;
mod numbers;
mod token_values;

pub use expression_actions::{
    make_add_expr, make_based_literal, make_binary, make_concatenation, make_conditional,
    make_decimal_literal, make_down_selection, make_first_expr, make_index_selection,
    make_name_alone, make_no_expr, make_no_exprs, make_parentheses, make_range_selection,
    make_replication, make_select, make_signed_call, make_sized_literal, make_some_expr,
    make_unary, make_unsigned_call, make_up_selection,
};
pub use token_values::token_value;
