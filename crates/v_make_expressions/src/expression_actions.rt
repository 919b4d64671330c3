//! Actions of expressions (IEEE 1364-2005, clause 5).

ghost use Rattle.std.specs.Prelude.{IfOk, reverse};
ghost use Rattle.v_actions.specs.ExpressionActions.{after_expression_action};
ghost use Rattle.v_actions.specs.declared.actions.ExpressionAction.TheVariants as ExpressionAction;
ghost use Rattle.v_stack.specs.Values.{Fits};

use sqlite_items::{Boxed, Items};
use stack_parts::{all_three, all_two, boxed_three, boxed_two, boxed_with};
use std::alloc::{AllocError, Global};
use v_stack::{
    ExprValue, Value, put, take_based, take_binary_operator, take_decimal, take_expr, take_exprs,
    take_name, take_place, take_selection, take_unary_operator,
};
use v_tree::{Expr, Literal, Selection};

/// `12`
pub fn make_decimal_literal(stack: &mut Vec<Value>) -> Result<bool, AllocError>
    ensures { IfOk result (λ fits. Fits fits (reverse stack.new.items) (after_expression_action ExpressionAction.DecimalLiteral (reverse stack.old.items))) }
{
    let Some(number) = take_decimal(stack) else {
        return Ok(false);
    };
    put(
        stack,
        Value::Expr(ExprValue::Expr(Expr::Literal(Literal::Decimal(number)))),
    )?;
    Ok(true)
}

/// `'hf`
pub fn make_based_literal(stack: &mut Vec<Value>) -> Result<bool, AllocError>
    ensures { IfOk result (λ fits. Fits fits (reverse stack.new.items) (after_expression_action ExpressionAction.BasedLiteral (reverse stack.old.items))) }
{
    let Some(number) = take_based(stack) else {
        return Ok(false);
    };
    put(
        stack,
        Value::Expr(ExprValue::Expr(Expr::Literal(Literal::Based(number)))),
    )?;
    Ok(true)
}

/// `4'hf`
pub fn make_sized_literal(stack: &mut Vec<Value>) -> Result<bool, AllocError>
    ensures { IfOk result (λ fits. Fits fits (reverse stack.new.items) (after_expression_action ExpressionAction.SizedLiteral (reverse stack.old.items))) }
{
    let number = take_based(stack);
    let size = take_decimal(stack);
    let Some((number, size)) = all_two(number, size) else {
        return Ok(false);
    };
    put(
        stack,
        Value::Expr(ExprValue::Expr(Expr::Literal(Literal::Sized(size, number)))),
    )?;
    Ok(true)
}

/// `name`
pub fn make_name_alone(stack: &mut Vec<Value>) -> Result<bool, AllocError>
    ensures { IfOk result (λ fits. Fits fits (reverse stack.new.items) (after_expression_action ExpressionAction.NameAlone (reverse stack.old.items))) }
{
    let Some(name) = take_name(stack) else {
        return Ok(false);
    };
    put(stack, Value::Expr(ExprValue::Expr(Expr::Name(name))))?;
    Ok(true)
}

/// `name [ selection ]`
pub fn make_select(alloc: Global, stack: &mut Vec<Value>) -> Result<bool, AllocError>
    ensures { IfOk result (λ fits. Fits fits (reverse stack.new.items) (after_expression_action ExpressionAction.Select (reverse stack.old.items))) }
{
    let selection = take_selection(stack);
    let name = take_name(stack);
    let Some((selection, name)) = all_two(selection, name) else {
        return Ok(false);
    };
    let (selection, name) = boxed_with(alloc, selection, name)?;
    put(
        stack,
        Value::Expr(ExprValue::Expr(Expr::Select(name, selection))),
    )?;
    Ok(true)
}

/// An operator before its operand.
pub fn make_unary(alloc: Global, stack: &mut Vec<Value>) -> Result<bool, AllocError>
    ensures { IfOk result (λ fits. Fits fits (reverse stack.new.items) (after_expression_action ExpressionAction.Unary (reverse stack.old.items))) }
{
    let operand = take_expr(stack);
    let operator = take_unary_operator(stack);
    let Some((operand, operator)) = all_two(operand, operator) else {
        return Ok(false);
    };
    let operand = Boxed::new(alloc, operand)?;
    put(
        stack,
        Value::Expr(ExprValue::Expr(Expr::Unary(operator, operand))),
    )?;
    Ok(true)
}

/// An operator between its operands.
pub fn make_binary(alloc: Global, stack: &mut Vec<Value>) -> Result<bool, AllocError>
    ensures { IfOk result (λ fits. Fits fits (reverse stack.new.items) (after_expression_action ExpressionAction.Binary (reverse stack.old.items))) }
{
    let right = take_expr(stack);
    let operator = take_binary_operator(stack);
    let left = take_expr(stack);
    let Some((right, operator, left)) = all_three(right, operator, left) else {
        return Ok(false);
    };
    let (left, right) = boxed_two(alloc, left, right)?;
    put(
        stack,
        Value::Expr(ExprValue::Expr(Expr::Binary(left, operator, right))),
    )?;
    Ok(true)
}

/// `condition ? one : other`
pub fn make_conditional(alloc: Global, stack: &mut Vec<Value>) -> Result<bool, AllocError>
    ensures { IfOk result (λ fits. Fits fits (reverse stack.new.items) (after_expression_action ExpressionAction.Conditional (reverse stack.old.items))) }
{
    let other = take_expr(stack);
    let one = take_expr(stack);
    let condition = take_expr(stack);
    let Some((other, one, condition)) = all_three(other, one, condition) else {
        return Ok(false);
    };
    let (condition, one, other) = boxed_three(alloc, condition, one, other)?;
    put(
        stack,
        Value::Expr(ExprValue::Expr(Expr::Conditional(condition, one, other))),
    )?;
    Ok(true)
}

/// `( inner )`
pub fn make_parentheses(alloc: Global, stack: &mut Vec<Value>) -> Result<bool, AllocError>
    ensures { IfOk result (λ fits. Fits fits (reverse stack.new.items) (after_expression_action ExpressionAction.Parentheses (reverse stack.old.items))) }
{
    let inner = take_expr(stack);
    let place = take_place(stack);
    let Some((inner, place)) = all_two(inner, place) else {
        return Ok(false);
    };
    let inner = Boxed::new(alloc, inner)?;
    put(
        stack,
        Value::Expr(ExprValue::Expr(Expr::Parentheses(place, inner))),
    )?;
    Ok(true)
}

/// `{ a, b }`
pub fn make_concatenation(stack: &mut Vec<Value>) -> Result<bool, AllocError>
    ensures { IfOk result (λ fits. Fits fits (reverse stack.new.items) (after_expression_action ExpressionAction.Concatenation (reverse stack.old.items))) }
{
    let parts = take_exprs(stack);
    let place = take_place(stack);
    let Some((parts, place)) = all_two(parts, place) else {
        return Ok(false);
    };
    put(
        stack,
        Value::Expr(ExprValue::Expr(Expr::Concatenation(place, parts))),
    )?;
    Ok(true)
}

/// `{ count { a, b } }`
pub fn make_replication(alloc: Global, stack: &mut Vec<Value>) -> Result<bool, AllocError>
    ensures { IfOk result (λ fits. Fits fits (reverse stack.new.items) (after_expression_action ExpressionAction.Replication (reverse stack.old.items))) }
{
    let parts = take_exprs(stack);
    let count = take_expr(stack);
    let place = take_place(stack);
    let Some((parts, count, place)) = all_three(parts, count, place) else {
        return Ok(false);
    };
    let (count, parts) = boxed_with(alloc, count, parts)?;
    put(
        stack,
        Value::Expr(ExprValue::Expr(Expr::Replication(place, count, parts))),
    )?;
    Ok(true)
}

/// `$signed ( operand )`
pub fn make_signed_call(alloc: Global, stack: &mut Vec<Value>) -> Result<bool, AllocError>
    ensures { IfOk result (λ fits. Fits fits (reverse stack.new.items) (after_expression_action ExpressionAction.SignedCall (reverse stack.old.items))) }
{
    let operand = take_expr(stack);
    let place = take_place(stack);
    let Some((operand, place)) = all_two(operand, place) else {
        return Ok(false);
    };
    let operand = Boxed::new(alloc, operand)?;
    put(
        stack,
        Value::Expr(ExprValue::Expr(Expr::Signed(place, operand))),
    )?;
    Ok(true)
}

/// `$unsigned ( operand )`
pub fn make_unsigned_call(alloc: Global, stack: &mut Vec<Value>) -> Result<bool, AllocError>
    ensures { IfOk result (λ fits. Fits fits (reverse stack.new.items) (after_expression_action ExpressionAction.UnsignedCall (reverse stack.old.items))) }
{
    let operand = take_expr(stack);
    let place = take_place(stack);
    let Some((operand, place)) = all_two(operand, place) else {
        return Ok(false);
    };
    let operand = Boxed::new(alloc, operand)?;
    put(
        stack,
        Value::Expr(ExprValue::Expr(Expr::Unsigned(place, operand))),
    )?;
    Ok(true)
}

/// `index`
pub fn make_index_selection(alloc: Global, stack: &mut Vec<Value>) -> Result<bool, AllocError>
    ensures { IfOk result (λ fits. Fits fits (reverse stack.new.items) (after_expression_action ExpressionAction.IndexSelection (reverse stack.old.items))) }
{
    let Some(index) = take_expr(stack) else {
        return Ok(false);
    };
    let index = Boxed::new(alloc, index)?;
    put(
        stack,
        Value::Expr(ExprValue::Selection(Selection::Index(index))),
    )?;
    Ok(true)
}

/// `high : low`
pub fn make_range_selection(alloc: Global, stack: &mut Vec<Value>) -> Result<bool, AllocError>
    ensures { IfOk result (λ fits. Fits fits (reverse stack.new.items) (after_expression_action ExpressionAction.RangeSelection (reverse stack.old.items))) }
{
    let low = take_expr(stack);
    let high = take_expr(stack);
    let Some((low, high)) = all_two(low, high) else {
        return Ok(false);
    };
    let (high, low) = boxed_two(alloc, high, low)?;
    put(
        stack,
        Value::Expr(ExprValue::Selection(Selection::Range(high, low))),
    )?;
    Ok(true)
}

/// `base +: width`
pub fn make_up_selection(alloc: Global, stack: &mut Vec<Value>) -> Result<bool, AllocError>
    ensures { IfOk result (λ fits. Fits fits (reverse stack.new.items) (after_expression_action ExpressionAction.UpSelection (reverse stack.old.items))) }
{
    let width = take_expr(stack);
    let base = take_expr(stack);
    let Some((width, base)) = all_two(width, base) else {
        return Ok(false);
    };
    let (base, width) = boxed_two(alloc, base, width)?;
    put(
        stack,
        Value::Expr(ExprValue::Selection(Selection::Up(base, width))),
    )?;
    Ok(true)
}

/// `base -: width`
pub fn make_down_selection(alloc: Global, stack: &mut Vec<Value>) -> Result<bool, AllocError>
    ensures { IfOk result (λ fits. Fits fits (reverse stack.new.items) (after_expression_action ExpressionAction.DownSelection (reverse stack.old.items))) }
{
    let width = take_expr(stack);
    let base = take_expr(stack);
    let Some((width, base)) = all_two(width, base) else {
        return Ok(false);
    };
    let (base, width) = boxed_two(alloc, base, width)?;
    put(
        stack,
        Value::Expr(ExprValue::Selection(Selection::Down(base, width))),
    )?;
    Ok(true)
}

/// No expressions yet.
pub fn make_no_exprs(alloc: Global, stack: &mut Vec<Value>) -> Result<bool, AllocError>
    ensures { IfOk result (λ fits. Fits fits (reverse stack.new.items) (after_expression_action ExpressionAction.NoExprs (reverse stack.old.items))) }
{
    put(stack, Value::Expr(ExprValue::Exprs(Items::new(alloc))))?;
    Ok(true)
}

/// One more of the expressions.
pub fn make_add_expr(stack: &mut Vec<Value>) -> Result<bool, AllocError>
    ensures { IfOk result (λ fits. Fits fits (reverse stack.new.items) (after_expression_action ExpressionAction.AddExpr (reverse stack.old.items))) }
{
    let expr = take_expr(stack);
    let exprs = take_exprs(stack);
    let Some((expr, mut exprs)) = all_two(expr, exprs) else {
        return Ok(false);
    };
    exprs.push(expr)?;
    put(stack, Value::Expr(ExprValue::Exprs(exprs)))?;
    Ok(true)
}

/// The first part of a concatenation.
pub fn make_first_expr(alloc: Global, stack: &mut Vec<Value>) -> Result<bool, AllocError>
    ensures { IfOk result (λ fits. Fits fits (reverse stack.new.items) (after_expression_action ExpressionAction.FirstExpr (reverse stack.old.items))) }
{
    let Some(expr) = take_expr(stack) else {
        return Ok(false);
    };
    put(
        stack,
        Value::Expr(ExprValue::Exprs(Items::from_vec(vec![in alloc; expr]?))),
    )?;
    Ok(true)
}

/// A value that is given.
pub fn make_some_expr(stack: &mut Vec<Value>) -> Result<bool, AllocError>
    ensures { IfOk result (λ fits. Fits fits (reverse stack.new.items) (after_expression_action ExpressionAction.SomeExpr (reverse stack.old.items))) }
{
    let Some(value) = take_expr(stack) else {
        return Ok(false);
    };
    put(stack, Value::Expr(ExprValue::ExprOption(Some(value))))?;
    Ok(true)
}

/// No value.
pub fn make_no_expr(stack: &mut Vec<Value>) -> Result<bool, AllocError>
    ensures { IfOk result (λ fits. Fits fits (reverse stack.new.items) (after_expression_action ExpressionAction.NoExpr (reverse stack.old.items))) }
{
    put(stack, Value::Expr(ExprValue::ExprOption(None)))?;
    Ok(true)
}
