//! Actions of statements (ISO C99, 6.8).

ghost use Rattle.std.specs.Prelude.{IfOk, reverse};
ghost use Rattle.c_stack.specs.Values.{Fits};
ghost use Rattle.c_actions.specs.StatementActions.{after_statement_action};

use c_actions::StatementAction;
use c_make_statements::{
    make_add_group, make_add_label, make_add_local, make_add_statement, make_add_to_group,
    make_assert, make_assign, make_block, make_break, make_call, make_case, make_compound,
    make_continue, make_cprover_assert, make_cprover_assume, make_default, make_do, make_empty,
    make_first_label, make_for, make_for_local, make_for_nothing, make_for_simple, make_group,
    make_if_alone, make_if_else, make_labelled, make_no_groups, make_no_items, make_no_simple,
    make_return, make_simple, make_some_simple, make_step_after, make_step_before, make_switch,
    make_update, make_while,
};
use c_stack::Value;
use std::alloc::{AllocError, Global};

/// Carries out an action of statements.
pub fn act_statement(
    alloc: Global,
    stack: &mut Vec<Value>,
    action: StatementAction,
) -> Result<bool, AllocError>
    ensures { IfOk result (λ fits. Fits fits (reverse stack.new.items) (after_statement_action action (reverse stack.old.items))) }
{
    match action {
        StatementAction::Call => make_call(stack),
        StatementAction::Assign => make_assign(stack),
        StatementAction::Update => make_update(stack),
        StatementAction::StepAfter => make_step_after(stack),
        StatementAction::StepBefore => make_step_before(stack),
        StatementAction::NoSimple => make_no_simple(stack),
        StatementAction::SomeSimple => make_some_simple(stack),
        StatementAction::ForNothing => make_for_nothing(stack),
        StatementAction::ForLocal => make_for_local(stack),
        StatementAction::ForSimple => make_for_simple(stack),
        StatementAction::Case => make_case(stack),
        StatementAction::Default => make_default(stack),
        StatementAction::FirstLabel => make_first_label(alloc, stack),
        StatementAction::AddLabel => make_add_label(stack),
        StatementAction::Labelled => make_labelled(alloc, stack),
        StatementAction::AddToGroup => make_add_to_group(stack),
        StatementAction::Group => make_group(stack),
        StatementAction::NoGroups => make_no_groups(alloc, stack),
        StatementAction::AddGroup => make_add_group(stack),
        StatementAction::NoItems => make_no_items(alloc, stack),
        StatementAction::AddLocal => make_add_local(stack),
        StatementAction::AddStatement => make_add_statement(stack),
        StatementAction::Block => make_block(stack),
        StatementAction::Compound => make_compound(stack),
        StatementAction::Empty => make_empty(stack),
        StatementAction::Simple => make_simple(stack),
        StatementAction::IfAlone => make_if_alone(alloc, stack),
        StatementAction::IfElse => make_if_else(alloc, stack),
        StatementAction::While => make_while(alloc, stack),
        StatementAction::Do => make_do(alloc, stack),
        StatementAction::For => make_for(alloc, stack),
        StatementAction::Switch => make_switch(stack),
        StatementAction::Break => make_break(stack),
        StatementAction::Continue => make_continue(stack),
        StatementAction::Return => make_return(stack),
        StatementAction::Assert => make_assert(stack),
        StatementAction::CproverAssert => make_cprover_assert(stack),
        StatementAction::CproverAssume => make_cprover_assume(stack),
    }
}
