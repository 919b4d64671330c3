//! Actions of expressions (IEEE 1364-2005, clause 5).

ghost use Rattle.std.specs.Prelude.{IfOk, reverse};
ghost use Rattle.v_stack.specs.Values.{Fits};
ghost use Rattle.v_actions.specs.ExpressionActions.{after_expression_action};

use std::alloc::{AllocError, Global};
use v_actions::ExpressionAction;
use v_make_expressions::{
    make_add_expr, make_based_literal, make_binary, make_concatenation, make_conditional,
    make_decimal_literal, make_down_selection, make_first_expr, make_index_selection,
    make_name_alone, make_no_expr, make_no_exprs, make_parentheses, make_range_selection,
    make_replication, make_select, make_signed_call, make_sized_literal, make_some_expr,
    make_unary, make_unsigned_call, make_up_selection,
};
use v_stack::Value;

/// Makes an expression or a select.
pub fn act_expr(
    alloc: Global,
    stack: &mut Vec<Value>,
    action: ExpressionAction,
) -> Result<bool, AllocError>
    ensures { IfOk result (λ fits. Fits fits (reverse stack.new.items) (after_expression_action action (reverse stack.old.items))) }
{
    match action {
        ExpressionAction::DecimalLiteral => make_decimal_literal(stack),
        ExpressionAction::BasedLiteral => make_based_literal(stack),
        ExpressionAction::SizedLiteral => make_sized_literal(stack),
        ExpressionAction::NameAlone => make_name_alone(stack),
        ExpressionAction::Select => make_select(alloc, stack),
        ExpressionAction::Unary => make_unary(alloc, stack),
        ExpressionAction::Binary => make_binary(alloc, stack),
        ExpressionAction::Conditional => make_conditional(alloc, stack),
        ExpressionAction::Parentheses => make_parentheses(alloc, stack),
        ExpressionAction::Concatenation => make_concatenation(stack),
        ExpressionAction::Replication => make_replication(alloc, stack),
        ExpressionAction::SignedCall => make_signed_call(alloc, stack),
        ExpressionAction::UnsignedCall => make_unsigned_call(alloc, stack),
        ExpressionAction::IndexSelection => make_index_selection(alloc, stack),
        ExpressionAction::RangeSelection => make_range_selection(alloc, stack),
        ExpressionAction::UpSelection => make_up_selection(alloc, stack),
        ExpressionAction::DownSelection => make_down_selection(alloc, stack),
        ExpressionAction::NoExprs => make_no_exprs(alloc, stack),
        ExpressionAction::AddExpr => make_add_expr(stack),
        ExpressionAction::FirstExpr => make_first_expr(alloc, stack),
        ExpressionAction::SomeExpr => make_some_expr(stack),
        ExpressionAction::NoExpr => make_no_expr(stack),
    }
}
