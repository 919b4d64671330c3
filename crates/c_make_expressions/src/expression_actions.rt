//! Actions of expressions (ISO C99, 6.5).

ghost use Rattle.std.specs.Prelude.{IfOk, reverse};
ghost use Rattle.c_stack.specs.Values.{Fits};
ghost use Rattle.c_actions.specs.ExpressionActions.{after_expression_action};
ghost use Rattle.c_actions.specs.declared.actions.ExpressionAction.TheVariants as expression_action;

use c_stack::{
    ExpressionValue, Value, put, take_binary_mark, take_expression, take_expressions, take_name,
    take_object, take_path, take_place, take_type, take_unary_mark,
};
use c_tree::{Expression, Object, Path};
use sqlite_items::{Boxed, Items};
use stack_parts::{all_four, all_three, all_two, boxed_three, boxed_two, boxed_with};
use std::alloc::{AllocError, Global};

/// `Object = ID`
pub fn make_object(alloc: Global, stack: &mut Vec<Value>) -> Result<bool, AllocError>
    ensures { IfOk result (λ fits. Fits fits (reverse stack.new.items) (after_expression_action expression_action.Object (reverse stack.old.items))) }
{
    let Some(name) = take_name(stack) else {
        return Ok(false);
    };
    put(
        stack,
        Value::Expression(ExpressionValue::Object(Object {
            name,
            members: Items::new(alloc),
        })),
    )?;
    Ok(true)
}

/// `Object = Object "." ID`
pub fn make_add_path_member(stack: &mut Vec<Value>) -> Result<bool, AllocError>
    ensures { IfOk result (λ fits. Fits fits (reverse stack.new.items) (after_expression_action expression_action.AddPathMember (reverse stack.old.items))) }
{
    let name = take_name(stack);
    let object = take_object(stack);
    let Some((name, mut object)) = all_two(name, object) else {
        return Ok(false);
    };
    object.members.push(name)?;
    put(stack, Value::Expression(ExpressionValue::Object(object)))?;
    Ok(true)
}

/// `Path = Object`
pub fn make_path(stack: &mut Vec<Value>) -> Result<bool, AllocError>
    ensures { IfOk result (λ fits. Fits fits (reverse stack.new.items) (after_expression_action expression_action.Path (reverse stack.old.items))) }
{
    let Some(object) = take_object(stack) else {
        return Ok(false);
    };
    put(
        stack,
        Value::Expression(ExpressionValue::Path(Path::Object(object))),
    )?;
    Ok(true)
}

/// `Path = Object "[" Expression "]"`
pub fn make_element(alloc: Global, stack: &mut Vec<Value>) -> Result<bool, AllocError>
    ensures { IfOk result (λ fits. Fits fits (reverse stack.new.items) (after_expression_action expression_action.Element (reverse stack.old.items))) }
{
    let index = take_expression(stack);
    let place = take_place(stack);
    let object = take_object(stack);
    let Some((index, place, object)) = all_three(index, place, object) else {
        return Ok(false);
    };
    let (index, object) = boxed_with(alloc, index, object)?;
    put(
        stack,
        Value::Expression(ExpressionValue::Path(Path::Element(object, place, index))),
    )?;
    Ok(true)
}

/// No expressions.
pub fn make_no_expressions(alloc: Global, stack: &mut Vec<Value>) -> Result<bool, AllocError>
    ensures { IfOk result (λ fits. Fits fits (reverse stack.new.items) (after_expression_action expression_action.NoExpressions (reverse stack.old.items))) }
{
    put(
        stack,
        Value::Expression(ExpressionValue::Expressions(Items::new(alloc))),
    )?;
    Ok(true)
}

/// The first of several expressions.
pub fn make_one_expression(alloc: Global, stack: &mut Vec<Value>) -> Result<bool, AllocError>
    ensures { IfOk result (λ fits. Fits fits (reverse stack.new.items) (after_expression_action expression_action.OneExpression (reverse stack.old.items))) }
{
    let Some(expression) = take_expression(stack) else {
        return Ok(false);
    };
    put(
        stack,
        Value::Expression(ExpressionValue::Expressions(Items::from_vec(vec![in alloc;
            expression,
        ]?))),
    )?;
    Ok(true)
}

/// One more expression.
pub fn make_add_expression(stack: &mut Vec<Value>) -> Result<bool, AllocError>
    ensures { IfOk result (λ fits. Fits fits (reverse stack.new.items) (after_expression_action expression_action.AddExpression (reverse stack.old.items))) }
{
    let expression = take_expression(stack);
    let expressions = take_expressions(stack);
    let Some((expression, mut expressions)) = all_two(expression, expressions) else {
        return Ok(false);
    };
    expressions.push(expression)?;
    put(
        stack,
        Value::Expression(ExpressionValue::Expressions(expressions)),
    )?;
    Ok(true)
}

/// No expression.
pub fn make_no_expression(stack: &mut Vec<Value>) -> Result<bool, AllocError>
    ensures { IfOk result (λ fits. Fits fits (reverse stack.new.items) (after_expression_action expression_action.NoExpression (reverse stack.old.items))) }
{
    put(
        stack,
        Value::Expression(ExpressionValue::ExpressionOption(None)),
    )?;
    Ok(true)
}

/// An expression where there may be none.
pub fn make_some_expression(stack: &mut Vec<Value>) -> Result<bool, AllocError>
    ensures { IfOk result (λ fits. Fits fits (reverse stack.new.items) (after_expression_action expression_action.SomeExpression (reverse stack.old.items))) }
{
    let Some(expression) = take_expression(stack) else {
        return Ok(false);
    };
    put(
        stack,
        Value::Expression(ExpressionValue::ExpressionOption(Some(expression))),
    )?;
    Ok(true)
}

/// `Primary = Path`
pub fn make_read(stack: &mut Vec<Value>) -> Result<bool, AllocError>
    ensures { IfOk result (λ fits. Fits fits (reverse stack.new.items) (after_expression_action expression_action.Read (reverse stack.old.items))) }
{
    let Some(path_read) = take_path(stack) else {
        return Ok(false);
    };
    put(
        stack,
        Value::Expression(ExpressionValue::Expression(Expression::Read(path_read))),
    )?;
    Ok(true)
}

/// `Primary = "(" Expression ")"`
pub fn make_parentheses(alloc: Global, stack: &mut Vec<Value>) -> Result<bool, AllocError>
    ensures { IfOk result (λ fits. Fits fits (reverse stack.new.items) (after_expression_action expression_action.Parentheses (reverse stack.old.items))) }
{
    let inside = take_expression(stack);
    let place = take_place(stack);
    let Some((inside, place)) = all_two(inside, place) else {
        return Ok(false);
    };
    let inside = Boxed::new(alloc, inside)?;
    put(
        stack,
        Value::Expression(ExpressionValue::Expression(Expression::Parentheses(place, inside))),
    )?;
    Ok(true)
}

/// `Unary = ("+" | "-" | "!" | "~") Unary`
pub fn make_unary(alloc: Global, stack: &mut Vec<Value>) -> Result<bool, AllocError>
    ensures { IfOk result (λ fits. Fits fits (reverse stack.new.items) (after_expression_action expression_action.Unary (reverse stack.old.items))) }
{
    let operand = take_expression(stack);
    let mark = take_unary_mark(stack);
    let Some((operand, mark)) = all_two(operand, mark) else {
        return Ok(false);
    };
    let operand = Boxed::new(alloc, operand)?;
    put(
        stack,
        Value::Expression(ExpressionValue::Expression(Expression::Unary(mark, operand))),
    )?;
    Ok(true)
}

/// `Unary = "(" Type ")" Unary`
pub fn make_cast(alloc: Global, stack: &mut Vec<Value>) -> Result<bool, AllocError>
    ensures { IfOk result (λ fits. Fits fits (reverse stack.new.items) (after_expression_action expression_action.Cast (reverse stack.old.items))) }
{
    let operand = take_expression(stack);
    let type_name = take_type(stack);
    let place = take_place(stack);
    let Some((operand, type_name, place)) = all_three(operand, type_name, place) else {
        return Ok(false);
    };
    let operand = Boxed::new(alloc, operand)?;
    put(
        stack,
        Value::Expression(ExpressionValue::Expression(Expression::Cast(place, type_name, operand))),
    )?;
    Ok(true)
}

/// An operator with its operands.
pub fn make_binary(alloc: Global, stack: &mut Vec<Value>) -> Result<bool, AllocError>
    ensures { IfOk result (λ fits. Fits fits (reverse stack.new.items) (after_expression_action expression_action.Binary (reverse stack.old.items))) }
{
    let right = take_expression(stack);
    let mark = take_binary_mark(stack);
    let left = take_expression(stack);
    let Some((right, mark, left)) = all_three(right, mark, left) else {
        return Ok(false);
    };
    let (left, right) = boxed_two(alloc, left, right)?;
    put(
        stack,
        Value::Expression(ExpressionValue::Expression(Expression::Binary(left, mark, right))),
    )?;
    Ok(true)
}

/// `Expression "?" Expression ":" Expression`
pub fn make_conditional(alloc: Global, stack: &mut Vec<Value>) -> Result<bool, AllocError>
    ensures { IfOk result (λ fits. Fits fits (reverse stack.new.items) (after_expression_action expression_action.Conditional (reverse stack.old.items))) }
{
    let second = take_expression(stack);
    let first = take_expression(stack);
    let place = take_place(stack);
    let condition = take_expression(stack);
    let Some((second, first, place, condition)) = all_four(second, first, place, condition) else {
        return Ok(false);
    };
    let (condition, first, second) = boxed_three(alloc, condition, first, second)?;
    put(
        stack,
        Value::Expression(ExpressionValue::Expression(Expression::Conditional(
            condition, place, first, second,
        ))),
    )?;
    Ok(true)
}
