//! Actions that make a value of the token right before them.

ghost use Rattle.std.specs.Prelude.{IfOk, reverse};
ghost use Rattle.c_stack.specs.Values.{Fits};
ghost use Rattle.c_actions.specs.TokenActions.{after_assignment_mark, after_binary_mark, after_character, after_declared, after_false, after_integer, after_name, after_place, after_sign, after_static, after_step_mark, after_true, after_unary_mark, after_word_type};

use crate::characters::character_value;
use c_stack::{ExpressionValue, PartValue, TokenValue, Value, put};
use c_tree::{
    AssignmentMark, AssignmentOperator, BinaryMark, BinaryOperator, Expression, Identifier,
    IntegerType, Sign, SignMark, StepMark, StepOperator, Storage, TypeName, UnaryMark,
    UnaryOperator,
};
use src_text::{Name, Place};
use std::alloc::{AllocError, Global};

/// The place of a token.
pub fn make_place(stack: &mut Vec<Value>, place: Place) -> Result<bool, AllocError>
    ensures { IfOk result (λ fits. Fits fits (reverse stack.new.items) (after_place place (reverse stack.old.items))) }
{
    put(stack, Value::Token(TokenValue::Place(place)))?;
    Ok(true)
}

/// `ID` that is used.
pub fn make_name(
    alloc: Global,
    stack: &mut Vec<Value>,
    place: Place,
    spelling: &[u8],
) -> Result<bool, AllocError>
    ensures { IfOk result (λ fits. Fits fits (reverse stack.new.items) (after_name place spelling.now (reverse stack.old.items))) }
{
    let text = String::from_utf8_lossy(alloc, spelling)?;
    let name = Name::new(alloc, text.as_str())?;
    put(
        stack,
        Value::Token(TokenValue::Name(Identifier { place, name: name })),
    )?;
    Ok(true)
}

/// `ID` that is declared.
pub fn make_declared(
    alloc: Global,
    stack: &mut Vec<Value>,
    place: Place,
    spelling: &[u8],
) -> Result<bool, AllocError>
    ensures { IfOk result (λ fits. Fits fits (reverse stack.new.items) (after_declared place spelling.now (reverse stack.old.items))) }
{
    let text = String::from_utf8_lossy(alloc, spelling)?;
    let name = Name::new(alloc, text.as_str())?;
    put(
        stack,
        Value::Token(TokenValue::Declared(Identifier { place, name: name })),
    )?;
    Ok(true)
}

/// `INT`
pub fn make_integer(
    alloc: Global,
    stack: &mut Vec<Value>,
    place: Place,
    spelling: &[u8],
) -> Result<bool, AllocError>
    ensures { IfOk result (λ fits. Fits fits (reverse stack.new.items) (after_integer place spelling.now (reverse stack.old.items))) }
{
    let text = String::from_utf8_lossy(alloc, spelling)?;
    let name = Name::new(alloc, text.as_str())?;
    put(
        stack,
        Value::Expression(ExpressionValue::Expression(Expression::Integer(place, name))),
    )?;
    Ok(true)
}

/// `CHAR`
pub fn make_character(
    stack: &mut Vec<Value>,
    place: Place,
    spelling: &[u8],
) -> Result<bool, AllocError>
    ensures { IfOk result (λ fits. Fits fits (reverse stack.new.items) (after_character place spelling.now (reverse stack.old.items))) }
{
    put(
        stack,
        Value::Expression(ExpressionValue::Expression(Expression::Character(
            place,
            character_value(spelling),
        ))),
    )?;
    Ok(true)
}

/// `"true"`
pub fn make_true(stack: &mut Vec<Value>, place: Place) -> Result<bool, AllocError>
    ensures { IfOk result (λ fits. Fits fits (reverse stack.new.items) (after_true place (reverse stack.old.items))) }
{
    put(
        stack,
        Value::Expression(ExpressionValue::Expression(Expression::True(place))),
    )?;
    Ok(true)
}

/// `"false"`
pub fn make_false(stack: &mut Vec<Value>, place: Place) -> Result<bool, AllocError>
    ensures { IfOk result (λ fits. Fits fits (reverse stack.new.items) (after_false place (reverse stack.old.items))) }
{
    put(
        stack,
        Value::Expression(ExpressionValue::Expression(Expression::False(place))),
    )?;
    Ok(true)
}

/// `"static"`
pub fn make_static(stack: &mut Vec<Value>, place: Place) -> Result<bool, AllocError>
    ensures { IfOk result (λ fits. Fits fits (reverse stack.new.items) (after_static place (reverse stack.old.items))) }
{
    put(
        stack,
        Value::Part(PartValue::Storage(Storage::Static(place))),
    )?;
    Ok(true)
}

/// A type that is one word.
pub fn make_word_type(
    stack: &mut Vec<Value>,
    integer_type: IntegerType,
    place: Place,
) -> Result<bool, AllocError>
    ensures { IfOk result (λ fits. Fits fits (reverse stack.new.items) (after_word_type integer_type place (reverse stack.old.items))) }
{
    put(
        stack,
        Value::Expression(ExpressionValue::Type(TypeName {
            place,
            integer: integer_type,
        })),
    )?;
    Ok(true)
}

/// `Sign`, or the first word of a type without one.
pub fn make_sign(stack: &mut Vec<Value>, word: Sign, place: Place) -> Result<bool, AllocError>
    ensures { IfOk result (λ fits. Fits fits (reverse stack.new.items) (after_sign word place (reverse stack.old.items))) }
{
    put(
        stack,
        Value::Token(TokenValue::Sign(SignMark { place, sign: word })),
    )?;
    Ok(true)
}

/// An operator before an operand.
pub fn make_unary_mark(
    stack: &mut Vec<Value>,
    operator: UnaryOperator,
    place: Place,
) -> Result<bool, AllocError>
    ensures { IfOk result (λ fits. Fits fits (reverse stack.new.items) (after_unary_mark operator place (reverse stack.old.items))) }
{
    put(
        stack,
        Value::Token(TokenValue::UnaryMark(UnaryMark { place, operator })),
    )?;
    Ok(true)
}

/// An operator between operands.
pub fn make_binary_mark(
    stack: &mut Vec<Value>,
    operator: BinaryOperator,
    place: Place,
) -> Result<bool, AllocError>
    ensures { IfOk result (λ fits. Fits fits (reverse stack.new.items) (after_binary_mark operator place (reverse stack.old.items))) }
{
    put(
        stack,
        Value::Token(TokenValue::BinaryMark(BinaryMark { place, operator })),
    )?;
    Ok(true)
}

/// An operator of a compound assignment.
pub fn make_assignment_mark(
    stack: &mut Vec<Value>,
    operator: AssignmentOperator,
    place: Place,
) -> Result<bool, AllocError>
    ensures { IfOk result (λ fits. Fits fits (reverse stack.new.items) (after_assignment_mark operator place (reverse stack.old.items))) }
{
    put(
        stack,
        Value::Token(TokenValue::AssignmentMark(AssignmentMark { place, operator })),
    )?;
    Ok(true)
}

/// `"++"` or `"--"`
pub fn make_step_mark(
    stack: &mut Vec<Value>,
    operator: StepOperator,
    place: Place,
) -> Result<bool, AllocError>
    ensures { IfOk result (λ fits. Fits fits (reverse stack.new.items) (after_step_mark operator place (reverse stack.old.items))) }
{
    put(
        stack,
        Value::Token(TokenValue::StepMark(StepMark { place, operator })),
    )?;
    Ok(true)
}
