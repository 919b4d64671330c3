//! Actions of expressions (ISO C99, 6.5).

ghost use Rattle.std.specs.Prelude.{IfOk, reverse};
ghost use Rattle.c_stack.specs.Values.{Fits};
ghost use Rattle.c_actions.specs.ExpressionActions.{after_expression_action};

use c_actions::ExpressionAction;
use c_make_expressions::{
    make_add_expression, make_add_path_member, make_binary, make_cast, make_conditional,
    make_element, make_no_expression, make_no_expressions, make_object, make_one_expression,
    make_parentheses, make_path, make_read, make_some_expression, make_unary,
};
use c_stack::Value;
use std::alloc::{AllocError, Global};

/// Carries out an action of expressions.
pub fn act_expression(
    alloc: Global,
    stack: &mut Vec<Value>,
    action: ExpressionAction,
) -> Result<bool, AllocError>
    ensures { IfOk result (λ fits. Fits fits (reverse stack.new.items) (after_expression_action action (reverse stack.old.items))) }
{
    match action {
        ExpressionAction::Object => make_object(alloc, stack),
        ExpressionAction::AddPathMember => make_add_path_member(stack),
        ExpressionAction::Path => make_path(stack),
        ExpressionAction::Element => make_element(alloc, stack),
        ExpressionAction::NoExpressions => make_no_expressions(alloc, stack),
        ExpressionAction::OneExpression => make_one_expression(alloc, stack),
        ExpressionAction::AddExpression => make_add_expression(stack),
        ExpressionAction::NoExpression => make_no_expression(stack),
        ExpressionAction::SomeExpression => make_some_expression(stack),
        ExpressionAction::Read => make_read(stack),
        ExpressionAction::Parentheses => make_parentheses(alloc, stack),
        ExpressionAction::Unary => make_unary(alloc, stack),
        ExpressionAction::Cast => make_cast(alloc, stack),
        ExpressionAction::Binary => make_binary(alloc, stack),
        ExpressionAction::Conditional => make_conditional(alloc, stack),
    }
}
