//! Actions of statements (IEEE 1364-2005, clause 9).

ghost use Rattle.std.specs.Prelude.{IfOk, reverse};
ghost use Rattle.v_stack.specs.Values.{Fits};
ghost use Rattle.v_actions.specs.StatementActions.{after_statement_action};

use std::alloc::{AllocError, Global};
use v_actions::StatementAction;
use v_make_statements::{
    make_add_case_item, make_add_stmt, make_add_target, make_assignment, make_block, make_blocking,
    make_case, make_casez, make_default_item, make_empty, make_for, make_if_alone, make_if_else,
    make_no_case_items, make_no_label, make_no_stmts, make_no_targets, make_nonblocking,
    make_some_label, make_target_concatenation, make_target_name, make_target_select,
    make_values_item,
};
use v_stack::Value;

/// Makes a statement or a target.
pub fn act_stmt(
    alloc: Global,
    stack: &mut Vec<Value>,
    action: StatementAction,
) -> Result<bool, AllocError>
    ensures { IfOk result (λ fits. Fits fits (reverse stack.new.items) (after_statement_action action (reverse stack.old.items))) }
{
    match action {
        StatementAction::TargetName => make_target_name(stack),
        StatementAction::TargetSelect => make_target_select(stack),
        StatementAction::TargetConcatenation => make_target_concatenation(stack),
        StatementAction::NoTargets => make_no_targets(alloc, stack),
        StatementAction::AddTarget => make_add_target(stack),
        StatementAction::Blocking => make_blocking(stack),
        StatementAction::Nonblocking => make_nonblocking(stack),
        StatementAction::Assignment => make_assignment(stack),
        StatementAction::Empty => make_empty(stack),
        StatementAction::SomeLabel => make_some_label(stack),
        StatementAction::NoLabel => make_no_label(stack),
        StatementAction::Block => make_block(stack),
        StatementAction::NoStmts => make_no_stmts(alloc, stack),
        StatementAction::AddStmt => make_add_stmt(stack),
        StatementAction::IfAlone => make_if_alone(alloc, stack),
        StatementAction::IfElse => make_if_else(alloc, stack),
        StatementAction::Case => make_case(stack),
        StatementAction::Casez => make_casez(stack),
        StatementAction::ValuesItem => make_values_item(alloc, stack),
        StatementAction::DefaultItem => make_default_item(alloc, stack),
        StatementAction::NoCaseItems => make_no_case_items(alloc, stack),
        StatementAction::AddCaseItem => make_add_case_item(stack),
        StatementAction::For => make_for(alloc, stack),
    }
}
