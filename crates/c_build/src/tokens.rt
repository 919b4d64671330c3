//! Actions that make a value of the token right before them.

ghost use Rattle.std.specs.Prelude.{IfOk, reverse};
ghost use Rattle.c_stack.specs.Values.{Fits};
ghost use Rattle.c_actions.specs.Acts.{after_token_action};

use c_actions::TokenAction;
use c_make_expressions::{
    make_assignment_mark, make_binary_mark, make_character, make_declared, make_false,
    make_integer, make_name, make_place, make_sign, make_static, make_step_mark, make_true,
    make_unary_mark, make_word_type,
};
use c_stack::Value;
use src_text::Place;
use std::alloc::{AllocError, Global};

/// Makes a value of the token right before the action.
pub fn act_token(
    alloc: Global,
    stack: &mut Vec<Value>,
    action: TokenAction,
    place: Place,
    spelling: &[u8],
) -> Result<bool, AllocError>
    ensures { IfOk result (λ fits. Fits fits (reverse stack.new.items) (after_token_action action place spelling.now (reverse stack.old.items))) }
{
    match action {
        TokenAction::Place => make_place(stack, place),
        TokenAction::Name => make_name(alloc, stack, place, spelling),
        TokenAction::Declared => make_declared(alloc, stack, place, spelling),
        TokenAction::Integer => make_integer(alloc, stack, place, spelling),
        TokenAction::Character => make_character(stack, place, spelling),
        TokenAction::True => make_true(stack, place),
        TokenAction::False => make_false(stack, place),
        TokenAction::Static => make_static(stack, place),
        TokenAction::Type(integer_type) => make_word_type(stack, integer_type, place),
        TokenAction::Sign(word) => make_sign(stack, word, place),
        TokenAction::Unary(operator) => make_unary_mark(stack, operator, place),
        TokenAction::Binary(operator) => make_binary_mark(stack, operator, place),
        TokenAction::Assignment(operator) => make_assignment_mark(stack, operator, place),
        TokenAction::Step(operator) => make_step_mark(stack, operator, place),
    }
}
