//! Actions of statements (IEEE 1364-2005, clause 9).

ghost use Rattle.std.specs.Prelude.{IfOk, reverse};
ghost use Rattle.v_actions.specs.StatementActions.{after_statement_action};
ghost use Rattle.v_actions.specs.declared.actions.StatementAction.TheVariants as StatementAction;
ghost use Rattle.v_stack.specs.Values.{Fits};

use sqlite_items::{Boxed, Items};
use stack_parts::{all_four, all_seven, all_three, all_two, boxed_with};
use std::alloc::{AllocError, Global};
use v_stack::{
    StmtValue, Value, put, take_assignment_kind, take_case_item, take_case_items, take_expr,
    take_exprs, take_label, take_name, take_place, take_selection, take_stmt, take_stmts,
    take_target, take_targets,
};
use v_tree::{
    Assignment, AssignmentKind, CaseItem, CaseKind, ForHead, LoopAssignment, Stmt, Target,
};

/// `name`
pub fn make_target_name(stack: &mut Vec<Value>) -> Result<bool, AllocError>
    ensures { IfOk result (λ fits. Fits fits (reverse stack.new.items) (after_statement_action StatementAction.TargetName (reverse stack.old.items))) }
{
    let Some(name) = take_name(stack) else {
        return Ok(false);
    };
    put(stack, Value::Stmt(StmtValue::Target(Target::Name(name))))?;
    Ok(true)
}

/// `name [ selection ]`
pub fn make_target_select(stack: &mut Vec<Value>) -> Result<bool, AllocError>
    ensures { IfOk result (λ fits. Fits fits (reverse stack.new.items) (after_statement_action StatementAction.TargetSelect (reverse stack.old.items))) }
{
    let selection = take_selection(stack);
    let name = take_name(stack);
    let Some((selection, name)) = all_two(selection, name) else {
        return Ok(false);
    };
    put(
        stack,
        Value::Stmt(StmtValue::Target(Target::Select(name, selection))),
    )?;
    Ok(true)
}

/// `{ a, b }`
pub fn make_target_concatenation(stack: &mut Vec<Value>) -> Result<bool, AllocError>
    ensures { IfOk result (λ fits. Fits fits (reverse stack.new.items) (after_statement_action StatementAction.TargetConcatenation (reverse stack.old.items))) }
{
    let parts = take_targets(stack);
    let place = take_place(stack);
    let Some((parts, place)) = all_two(parts, place) else {
        return Ok(false);
    };
    put(
        stack,
        Value::Stmt(StmtValue::Target(Target::Concatenation(place, parts))),
    )?;
    Ok(true)
}

/// No targets yet.
pub fn make_no_targets(alloc: Global, stack: &mut Vec<Value>) -> Result<bool, AllocError>
    ensures { IfOk result (λ fits. Fits fits (reverse stack.new.items) (after_statement_action StatementAction.NoTargets (reverse stack.old.items))) }
{
    put(stack, Value::Stmt(StmtValue::Targets(Items::new(alloc))))?;
    Ok(true)
}

/// One more of the targets.
pub fn make_add_target(stack: &mut Vec<Value>) -> Result<bool, AllocError>
    ensures { IfOk result (λ fits. Fits fits (reverse stack.new.items) (after_statement_action StatementAction.AddTarget (reverse stack.old.items))) }
{
    let target = take_target(stack);
    let targets = take_targets(stack);
    let Some((target, mut targets)) = all_two(target, targets) else {
        return Ok(false);
    };
    targets.push(target)?;
    put(stack, Value::Stmt(StmtValue::Targets(targets)))?;
    Ok(true)
}

/// `=`
pub fn make_blocking(stack: &mut Vec<Value>) -> Result<bool, AllocError>
    ensures { IfOk result (λ fits. Fits fits (reverse stack.new.items) (after_statement_action StatementAction.Blocking (reverse stack.old.items))) }
{
    put(
        stack,
        Value::Stmt(StmtValue::AssignmentKind(AssignmentKind::Blocking)),
    )?;
    Ok(true)
}

/// `<=`
pub fn make_nonblocking(stack: &mut Vec<Value>) -> Result<bool, AllocError>
    ensures { IfOk result (λ fits. Fits fits (reverse stack.new.items) (after_statement_action StatementAction.Nonblocking (reverse stack.old.items))) }
{
    put(
        stack,
        Value::Stmt(StmtValue::AssignmentKind(AssignmentKind::Nonblocking)),
    )?;
    Ok(true)
}

/// `target = value ;`
pub fn make_assignment(stack: &mut Vec<Value>) -> Result<bool, AllocError>
    ensures { IfOk result (λ fits. Fits fits (reverse stack.new.items) (after_statement_action StatementAction.Assignment (reverse stack.old.items))) }
{
    let value = take_expr(stack);
    let kind = take_assignment_kind(stack);
    let target = take_target(stack);
    let Some((value, kind, target)) = all_three(value, kind, target) else {
        return Ok(false);
    };
    put(
        stack,
        Value::Stmt(StmtValue::Stmt(Stmt::Assignment(Assignment {
            target,
            kind,
            value,
        }))),
    )?;
    Ok(true)
}

/// `;`
pub fn make_empty(stack: &mut Vec<Value>) -> Result<bool, AllocError>
    ensures { IfOk result (λ fits. Fits fits (reverse stack.new.items) (after_statement_action StatementAction.Empty (reverse stack.old.items))) }
{
    let Some(place) = take_place(stack) else {
        return Ok(false);
    };
    put(stack, Value::Stmt(StmtValue::Stmt(Stmt::Empty(place))))?;
    Ok(true)
}

/// `: name`
pub fn make_some_label(stack: &mut Vec<Value>) -> Result<bool, AllocError>
    ensures { IfOk result (λ fits. Fits fits (reverse stack.new.items) (after_statement_action StatementAction.SomeLabel (reverse stack.old.items))) }
{
    let Some(name) = take_name(stack) else {
        return Ok(false);
    };
    put(stack, Value::Stmt(StmtValue::Label(Some(name))))?;
    Ok(true)
}

/// No label.
pub fn make_no_label(stack: &mut Vec<Value>) -> Result<bool, AllocError>
    ensures { IfOk result (λ fits. Fits fits (reverse stack.new.items) (after_statement_action StatementAction.NoLabel (reverse stack.old.items))) }
{
    put(stack, Value::Stmt(StmtValue::Label(None)))?;
    Ok(true)
}

/// `begin label body end`
pub fn make_block(stack: &mut Vec<Value>) -> Result<bool, AllocError>
    ensures { IfOk result (λ fits. Fits fits (reverse stack.new.items) (after_statement_action StatementAction.Block (reverse stack.old.items))) }
{
    let body = take_stmts(stack);
    let label = take_label(stack);
    let place = take_place(stack);
    let Some((body, label, place)) = all_three(body, label, place) else {
        return Ok(false);
    };
    put(
        stack,
        Value::Stmt(StmtValue::Stmt(Stmt::Block(place, label, body))),
    )?;
    Ok(true)
}

/// No statements yet.
pub fn make_no_stmts(alloc: Global, stack: &mut Vec<Value>) -> Result<bool, AllocError>
    ensures { IfOk result (λ fits. Fits fits (reverse stack.new.items) (after_statement_action StatementAction.NoStmts (reverse stack.old.items))) }
{
    put(stack, Value::Stmt(StmtValue::Stmts(Items::new(alloc))))?;
    Ok(true)
}

/// One more of the statements.
pub fn make_add_stmt(stack: &mut Vec<Value>) -> Result<bool, AllocError>
    ensures { IfOk result (λ fits. Fits fits (reverse stack.new.items) (after_statement_action StatementAction.AddStmt (reverse stack.old.items))) }
{
    let stmt = take_stmt(stack);
    let stmts = take_stmts(stack);
    let Some((stmt, mut stmts)) = all_two(stmt, stmts) else {
        return Ok(false);
    };
    stmts.push(stmt)?;
    put(stack, Value::Stmt(StmtValue::Stmts(stmts)))?;
    Ok(true)
}

/// `if ( condition ) body`
pub fn make_if_alone(alloc: Global, stack: &mut Vec<Value>) -> Result<bool, AllocError>
    ensures { IfOk result (λ fits. Fits fits (reverse stack.new.items) (after_statement_action StatementAction.IfAlone (reverse stack.old.items))) }
{
    let body = take_stmt(stack);
    let condition = take_expr(stack);
    let place = take_place(stack);
    let Some((body, condition, place)) = all_three(body, condition, place) else {
        return Ok(false);
    };
    let (body, condition) = boxed_with(alloc, body, condition)?;
    put(
        stack,
        Value::Stmt(StmtValue::Stmt(Stmt::If(place, condition, body))),
    )?;
    Ok(true)
}

/// `if ( condition ) body else other`
pub fn make_if_else(alloc: Global, stack: &mut Vec<Value>) -> Result<bool, AllocError>
    ensures { IfOk result (λ fits. Fits fits (reverse stack.new.items) (after_statement_action StatementAction.IfElse (reverse stack.old.items))) }
{
    let other = take_stmt(stack);
    let body = take_stmt(stack);
    let condition = take_expr(stack);
    let place = take_place(stack);
    let Some((other, body, condition, place)) = all_four(other, body, condition, place) else {
        return Ok(false);
    };
    let (body, (other, condition)) = boxed_with(alloc, body, (other, condition))?;
    let (other, (body, condition)) = boxed_with(alloc, other, (body, condition))?;
    put(
        stack,
        Value::Stmt(StmtValue::Stmt(Stmt::IfElse(place, condition, body, other))),
    )?;
    Ok(true)
}

/// `case ( value ) items endcase`
pub fn make_case(stack: &mut Vec<Value>) -> Result<bool, AllocError>
    ensures { IfOk result (λ fits. Fits fits (reverse stack.new.items) (after_statement_action StatementAction.Case (reverse stack.old.items))) }
{
    let items = take_case_items(stack);
    let value = take_expr(stack);
    let place = take_place(stack);
    let Some((items, value, place)) = all_three(items, value, place) else {
        return Ok(false);
    };
    put(
        stack,
        Value::Stmt(StmtValue::Stmt(Stmt::Case(place, CaseKind::Case, value, items))),
    )?;
    Ok(true)
}

/// `casez ( value ) items endcase`
pub fn make_casez(stack: &mut Vec<Value>) -> Result<bool, AllocError>
    ensures { IfOk result (λ fits. Fits fits (reverse stack.new.items) (after_statement_action StatementAction.Casez (reverse stack.old.items))) }
{
    let items = take_case_items(stack);
    let value = take_expr(stack);
    let place = take_place(stack);
    let Some((items, value, place)) = all_three(items, value, place) else {
        return Ok(false);
    };
    put(
        stack,
        Value::Stmt(StmtValue::Stmt(Stmt::Case(place, CaseKind::Casez, value, items))),
    )?;
    Ok(true)
}

/// `a, b : body`
pub fn make_values_item(alloc: Global, stack: &mut Vec<Value>) -> Result<bool, AllocError>
    ensures { IfOk result (λ fits. Fits fits (reverse stack.new.items) (after_statement_action StatementAction.ValuesItem (reverse stack.old.items))) }
{
    let body = take_stmt(stack);
    let values = take_exprs(stack);
    let Some((body, values)) = all_two(body, values) else {
        return Ok(false);
    };
    let (body, values) = boxed_with(alloc, body, values)?;
    put(
        stack,
        Value::Stmt(StmtValue::CaseItem(CaseItem::Values(values, body))),
    )?;
    Ok(true)
}

/// `default : body`
pub fn make_default_item(alloc: Global, stack: &mut Vec<Value>) -> Result<bool, AllocError>
    ensures { IfOk result (λ fits. Fits fits (reverse stack.new.items) (after_statement_action StatementAction.DefaultItem (reverse stack.old.items))) }
{
    let body = take_stmt(stack);
    let place = take_place(stack);
    let Some((body, place)) = all_two(body, place) else {
        return Ok(false);
    };
    let body = Boxed::new(alloc, body)?;
    put(
        stack,
        Value::Stmt(StmtValue::CaseItem(CaseItem::Default(place, body))),
    )?;
    Ok(true)
}

/// No case items yet.
pub fn make_no_case_items(alloc: Global, stack: &mut Vec<Value>) -> Result<bool, AllocError>
    ensures { IfOk result (λ fits. Fits fits (reverse stack.new.items) (after_statement_action StatementAction.NoCaseItems (reverse stack.old.items))) }
{
    put(stack, Value::Stmt(StmtValue::CaseItems(Items::new(alloc))))?;
    Ok(true)
}

/// One more of the case items.
pub fn make_add_case_item(stack: &mut Vec<Value>) -> Result<bool, AllocError>
    ensures { IfOk result (λ fits. Fits fits (reverse stack.new.items) (after_statement_action StatementAction.AddCaseItem (reverse stack.old.items))) }
{
    let item = take_case_item(stack);
    let items = take_case_items(stack);
    let Some((item, mut items)) = all_two(item, items) else {
        return Ok(false);
    };
    items.push(item)?;
    put(stack, Value::Stmt(StmtValue::CaseItems(items)))?;
    Ok(true)
}

/// `for ( start = first ; condition ; step = next ) body`
pub fn make_for(alloc: Global, stack: &mut Vec<Value>) -> Result<bool, AllocError>
    ensures { IfOk result (λ fits. Fits fits (reverse stack.new.items) (after_statement_action StatementAction.For (reverse stack.old.items))) }
{
    let body = take_stmt(stack);
    let next = take_expr(stack);
    let step = take_name(stack);
    let condition = take_expr(stack);
    let first = take_expr(stack);
    let start = take_name(stack);
    let place = take_place(stack);
    let Some((body, next, step, condition, first, start, place)) = all_seven(
        body, next, step, condition, first, start, place,
    ) else {
        return Ok(false);
    };
    let (body, (next, step, condition, first, start)) = boxed_with(
        alloc,
        body,
        (next, step, condition, first, start),
    )?;
    put(
        stack,
        Value::Stmt(StmtValue::Stmt(Stmt::For(
            place,
            ForHead {
                start: LoopAssignment {
                    name: start,
                    value: first,
                },
                condition,
                step: LoopAssignment {
                    name: step,
                    value: next,
                },
            },
            body,
        ))),
    )?;
    Ok(true)
}
