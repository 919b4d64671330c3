//! What an action does to the stack, by the action.

ghost use Rattle.std.specs.Prelude.{IfOk, reverse};
ghost use Rattle.c_stack.specs.Values.{Fits};
ghost use Rattle.c_actions.specs.Acts.{after_action};

use crate::declarations::act_declaration;
use crate::expressions::act_expression;
use crate::files::act_file;
use crate::statements::act_statement;
use crate::tokens::act_token;
use c_actions::Action;
use c_stack::Value;
use src_text::Place;
use std::alloc::{AllocError, Global};

/// Carries out an action right after the token that stands at this place and is spelled so, in a text that ends at `end`.
/// `false` says that the values that it takes are not on top of the stack; the stack is then of no more use.
pub fn act(
    alloc: Global,
    stack: &mut Vec<Value>,
    action: Action,
    end: Place,
    place: Place,
    spelling: &[u8],
) -> Result<bool, AllocError>
    ensures { IfOk result (λ fits. Fits fits (reverse stack.new.items) (after_action action end place spelling.now (reverse stack.old.items))) }
{
    match action {
        Action::Token(action) => act_token(alloc, stack, action, place, spelling),
        Action::Expression(action) => act_expression(alloc, stack, action),
        Action::Declaration(action) => act_declaration(alloc, stack, action),
        Action::Statement(action) => act_statement(alloc, stack, action),
        Action::File(action) => act_file(alloc, stack, action, end),
    }
}
