//! Actions of statements (ISO C99, 6.8).

ghost use Rattle.std.specs.Prelude.{◌≡◌, IfOk, reverse};
ghost use Rattle.c_tree.specs.Starts.{label_start};
ghost use Rattle.c_stack.specs.Values.{Fits};
ghost use Rattle.c_actions.specs.StatementActions.{after_statement_action};
ghost use Rattle.c_actions.specs.declared.actions.StatementAction.TheVariants as statement_action;

use c_stack::{
    Labels, StatementValue, SwitchValue, Value, put, take_assignment_mark, take_block,
    take_expression, take_expression_option, take_expressions, take_for_first, take_group,
    take_groups, take_initializer, take_initializer_option, take_label, take_labelled, take_labels,
    take_local, take_name, take_parts, take_path, take_place, take_simple, take_simple_option,
    take_statement, take_step_mark,
};
use c_tree::{Block, BlockItem, Call, ForFirst, Group, Label, Simple, Statement};
use sqlite_items::Items;
use src_text::Place;
use stack_parts::{all_five, all_four, all_three, all_two, boxed_with};
use std::alloc::{AllocError, Global};

/// The place of a label's first token.
fn label_start(label: &Label) -> Place
    ensures { result ≡ label_start label.now }
{
    match label {
        Label::Case(place, _) => *place,
        Label::Default(place) => *place,
    }
}

/// `Simple = Call`
pub fn make_call(stack: &mut Vec<Value>) -> Result<bool, AllocError>
    ensures { IfOk result (λ fits. Fits fits (reverse stack.new.items) (after_statement_action statement_action.Call (reverse stack.old.items))) }
{
    let arguments = take_expressions(stack);
    let name = take_name(stack);
    let Some((arguments, name)) = all_two(arguments, name) else {
        return Ok(false);
    };
    put(
        stack,
        Value::Statement(StatementValue::Simple(Simple::Called(Call { name, arguments }))),
    )?;
    Ok(true)
}

/// `Simple = Path "=" Init`
pub fn make_assign(stack: &mut Vec<Value>) -> Result<bool, AllocError>
    ensures { IfOk result (λ fits. Fits fits (reverse stack.new.items) (after_statement_action statement_action.Assign (reverse stack.old.items))) }
{
    let given = take_initializer(stack);
    let target = take_path(stack);
    let Some((given, target)) = all_two(given, target) else {
        return Ok(false);
    };
    put(
        stack,
        Value::Statement(StatementValue::Simple(Simple::Assign(target, given))),
    )?;
    Ok(true)
}

/// `Simple = Path OpAssign Expression`
pub fn make_update(stack: &mut Vec<Value>) -> Result<bool, AllocError>
    ensures { IfOk result (λ fits. Fits fits (reverse stack.new.items) (after_statement_action statement_action.Update (reverse stack.old.items))) }
{
    let operand = take_expression(stack);
    let mark = take_assignment_mark(stack);
    let target = take_path(stack);
    let Some((operand, mark, target)) = all_three(operand, mark, target) else {
        return Ok(false);
    };
    put(
        stack,
        Value::Statement(StatementValue::Simple(Simple::Update(target, mark, operand))),
    )?;
    Ok(true)
}

/// `Simple = Path ("++" | "--")`
pub fn make_step_after(stack: &mut Vec<Value>) -> Result<bool, AllocError>
    ensures { IfOk result (λ fits. Fits fits (reverse stack.new.items) (after_statement_action statement_action.StepAfter (reverse stack.old.items))) }
{
    let mark = take_step_mark(stack);
    let target = take_path(stack);
    let Some((mark, target)) = all_two(mark, target) else {
        return Ok(false);
    };
    put(
        stack,
        Value::Statement(StatementValue::Simple(Simple::StepAfter(target, mark))),
    )?;
    Ok(true)
}

/// `Simple = ("++" | "--") Path`
pub fn make_step_before(stack: &mut Vec<Value>) -> Result<bool, AllocError>
    ensures { IfOk result (λ fits. Fits fits (reverse stack.new.items) (after_statement_action statement_action.StepBefore (reverse stack.old.items))) }
{
    let target = take_path(stack);
    let mark = take_step_mark(stack);
    let Some((target, mark)) = all_two(target, mark) else {
        return Ok(false);
    };
    put(
        stack,
        Value::Statement(StatementValue::Simple(Simple::StepBefore(mark, target))),
    )?;
    Ok(true)
}

/// No simple statement.
pub fn make_no_simple(stack: &mut Vec<Value>) -> Result<bool, AllocError>
    ensures { IfOk result (λ fits. Fits fits (reverse stack.new.items) (after_statement_action statement_action.NoSimple (reverse stack.old.items))) }
{
    put(stack, Value::Statement(StatementValue::SimpleOption(None)))?;
    Ok(true)
}

/// A simple statement where there may be none.
pub fn make_some_simple(stack: &mut Vec<Value>) -> Result<bool, AllocError>
    ensures { IfOk result (λ fits. Fits fits (reverse stack.new.items) (after_statement_action statement_action.SomeSimple (reverse stack.old.items))) }
{
    let Some(part) = take_simple(stack) else {
        return Ok(false);
    };
    put(
        stack,
        Value::Statement(StatementValue::SimpleOption(Some(part))),
    )?;
    Ok(true)
}

/// Nothing before the first `;` of a `for`
pub fn make_for_nothing(stack: &mut Vec<Value>) -> Result<bool, AllocError>
    ensures { IfOk result (λ fits. Fits fits (reverse stack.new.items) (after_statement_action statement_action.ForNothing (reverse stack.old.items))) }
{
    put(
        stack,
        Value::Statement(StatementValue::ForFirst(ForFirst::Nothing)),
    )?;
    Ok(true)
}

/// A declaration in the head of a `for`
pub fn make_for_local(stack: &mut Vec<Value>) -> Result<bool, AllocError>
    ensures { IfOk result (λ fits. Fits fits (reverse stack.new.items) (after_statement_action statement_action.ForLocal (reverse stack.old.items))) }
{
    let Some(part) = take_local(stack) else {
        return Ok(false);
    };
    put(
        stack,
        Value::Statement(StatementValue::ForFirst(ForFirst::Local(part))),
    )?;
    Ok(true)
}

/// A simple statement in the head of a `for`
pub fn make_for_simple(stack: &mut Vec<Value>) -> Result<bool, AllocError>
    ensures { IfOk result (λ fits. Fits fits (reverse stack.new.items) (after_statement_action statement_action.ForSimple (reverse stack.old.items))) }
{
    let Some(part) = take_simple(stack) else {
        return Ok(false);
    };
    put(
        stack,
        Value::Statement(StatementValue::ForFirst(ForFirst::Simple(part))),
    )?;
    Ok(true)
}

/// `Label = "case" Expression ":"`
pub fn make_case(stack: &mut Vec<Value>) -> Result<bool, AllocError>
    ensures { IfOk result (λ fits. Fits fits (reverse stack.new.items) (after_statement_action statement_action.Case (reverse stack.old.items))) }
{
    let given = take_expression(stack);
    let place = take_place(stack);
    let Some((given, place)) = all_two(given, place) else {
        return Ok(false);
    };
    put(
        stack,
        Value::Statement(StatementValue::Label(Label::Case(place, given))),
    )?;
    Ok(true)
}

/// `Label = "default" ":"`
pub fn make_default(stack: &mut Vec<Value>) -> Result<bool, AllocError>
    ensures { IfOk result (λ fits. Fits fits (reverse stack.new.items) (after_statement_action statement_action.Default (reverse stack.old.items))) }
{
    let Some(place) = take_place(stack) else {
        return Ok(false);
    };
    put(
        stack,
        Value::Statement(StatementValue::Label(Label::Default(place))),
    )?;
    Ok(true)
}

/// The first label of a group.
pub fn make_first_label(alloc: Global, stack: &mut Vec<Value>) -> Result<bool, AllocError>
    ensures { IfOk result (λ fits. Fits fits (reverse stack.new.items) (after_statement_action statement_action.FirstLabel (reverse stack.old.items))) }
{
    let Some(label_made) = take_label(stack) else {
        return Ok(false);
    };
    let label_place = label_start(&label_made);
    put(
        stack,
        Value::Switch(SwitchValue::Labels(Labels {
            place: label_place,
            labels: Items::from_vec(vec![in alloc; label_made]?),
        })),
    )?;
    Ok(true)
}

/// One more label of a group.
pub fn make_add_label(stack: &mut Vec<Value>) -> Result<bool, AllocError>
    ensures { IfOk result (λ fits. Fits fits (reverse stack.new.items) (after_statement_action statement_action.AddLabel (reverse stack.old.items))) }
{
    let label_made = take_label(stack);
    let labels = take_labels(stack);
    let Some((label_made, mut labels)) = all_two(label_made, labels) else {
        return Ok(false);
    };
    labels.labels.push(label_made)?;
    put(stack, Value::Switch(SwitchValue::Labels(labels)))?;
    Ok(true)
}

/// The end of the labels of a group.
pub fn make_labelled(alloc: Global, stack: &mut Vec<Value>) -> Result<bool, AllocError>
    ensures { IfOk result (λ fits. Fits fits (reverse stack.new.items) (after_statement_action statement_action.Labelled (reverse stack.old.items))) }
{
    let Some(labels) = take_labels(stack) else {
        return Ok(false);
    };
    put(
        stack,
        Value::Switch(SwitchValue::Labelled(Group {
            place: labels.place,
            labels: labels.labels,
            body: Items::new(alloc),
        })),
    )?;
    Ok(true)
}

/// One more statement of a group.
pub fn make_add_to_group(stack: &mut Vec<Value>) -> Result<bool, AllocError>
    ensures { IfOk result (λ fits. Fits fits (reverse stack.new.items) (after_statement_action statement_action.AddToGroup (reverse stack.old.items))) }
{
    let part = take_statement(stack);
    let labelled = take_labelled(stack);
    let Some((part, mut labelled)) = all_two(part, labelled) else {
        return Ok(false);
    };
    labelled.body.push(part)?;
    put(stack, Value::Switch(SwitchValue::Labelled(labelled)))?;
    Ok(true)
}

/// `Group = Label { Label } { Statement }`
pub fn make_group(stack: &mut Vec<Value>) -> Result<bool, AllocError>
    ensures { IfOk result (λ fits. Fits fits (reverse stack.new.items) (after_statement_action statement_action.Group (reverse stack.old.items))) }
{
    let Some(labelled) = take_labelled(stack) else {
        return Ok(false);
    };
    put(stack, Value::Switch(SwitchValue::Group(labelled)))?;
    Ok(true)
}

/// No groups.
pub fn make_no_groups(alloc: Global, stack: &mut Vec<Value>) -> Result<bool, AllocError>
    ensures { IfOk result (λ fits. Fits fits (reverse stack.new.items) (after_statement_action statement_action.NoGroups (reverse stack.old.items))) }
{
    put(stack, Value::Switch(SwitchValue::Groups(Items::new(alloc))))?;
    Ok(true)
}

/// One more group.
pub fn make_add_group(stack: &mut Vec<Value>) -> Result<bool, AllocError>
    ensures { IfOk result (λ fits. Fits fits (reverse stack.new.items) (after_statement_action statement_action.AddGroup (reverse stack.old.items))) }
{
    let group = take_group(stack);
    let groups = take_groups(stack);
    let Some((group, mut groups)) = all_two(group, groups) else {
        return Ok(false);
    };
    groups.push(group)?;
    put(stack, Value::Switch(SwitchValue::Groups(groups)))?;
    Ok(true)
}

/// An empty block.
pub fn make_no_items(alloc: Global, stack: &mut Vec<Value>) -> Result<bool, AllocError>
    ensures { IfOk result (λ fits. Fits fits (reverse stack.new.items) (after_statement_action statement_action.NoItems (reverse stack.old.items))) }
{
    put(
        stack,
        Value::Statement(StatementValue::Parts(Items::new(alloc))),
    )?;
    Ok(true)
}

/// One more declaration of a block.
pub fn make_add_local(stack: &mut Vec<Value>) -> Result<bool, AllocError>
    ensures { IfOk result (λ fits. Fits fits (reverse stack.new.items) (after_statement_action statement_action.AddLocal (reverse stack.old.items))) }
{
    let part = take_local(stack);
    let parts = take_parts(stack);
    let Some((part, mut parts)) = all_two(part, parts) else {
        return Ok(false);
    };
    parts.push(BlockItem::Local(part))?;
    put(stack, Value::Statement(StatementValue::Parts(parts)))?;
    Ok(true)
}

/// One more statement of a block.
pub fn make_add_statement(stack: &mut Vec<Value>) -> Result<bool, AllocError>
    ensures { IfOk result (λ fits. Fits fits (reverse stack.new.items) (after_statement_action statement_action.AddStatement (reverse stack.old.items))) }
{
    let part = take_statement(stack);
    let parts = take_parts(stack);
    let Some((part, mut parts)) = all_two(part, parts) else {
        return Ok(false);
    };
    parts.push(BlockItem::Statement(part))?;
    put(stack, Value::Statement(StatementValue::Parts(parts)))?;
    Ok(true)
}

/// `Block = "{" { Local | Statement } "}"`
pub fn make_block(stack: &mut Vec<Value>) -> Result<bool, AllocError>
    ensures { IfOk result (λ fits. Fits fits (reverse stack.new.items) (after_statement_action statement_action.Block (reverse stack.old.items))) }
{
    let items = take_parts(stack);
    let place = take_place(stack);
    let Some((items, place)) = all_two(items, place) else {
        return Ok(false);
    };
    put(
        stack,
        Value::Statement(StatementValue::Block(Block { place, items })),
    )?;
    Ok(true)
}

/// `Statement = Block`
pub fn make_compound(stack: &mut Vec<Value>) -> Result<bool, AllocError>
    ensures { IfOk result (λ fits. Fits fits (reverse stack.new.items) (after_statement_action statement_action.Compound (reverse stack.old.items))) }
{
    let Some(part) = take_block(stack) else {
        return Ok(false);
    };
    put(
        stack,
        Value::Statement(StatementValue::Statement(Statement::Compound(part.place, part.items))),
    )?;
    Ok(true)
}

/// `Statement = ";"`
pub fn make_empty(stack: &mut Vec<Value>) -> Result<bool, AllocError>
    ensures { IfOk result (λ fits. Fits fits (reverse stack.new.items) (after_statement_action statement_action.Empty (reverse stack.old.items))) }
{
    let Some(place) = take_place(stack) else {
        return Ok(false);
    };
    put(
        stack,
        Value::Statement(StatementValue::Statement(Statement::Empty(place))),
    )?;
    Ok(true)
}

/// `Statement = Simple ";"`
pub fn make_simple(stack: &mut Vec<Value>) -> Result<bool, AllocError>
    ensures { IfOk result (λ fits. Fits fits (reverse stack.new.items) (after_statement_action statement_action.Simple (reverse stack.old.items))) }
{
    let Some(part) = take_simple(stack) else {
        return Ok(false);
    };
    put(
        stack,
        Value::Statement(StatementValue::Statement(Statement::Simple(part))),
    )?;
    Ok(true)
}

/// `Statement = "if" "(" Expression ")" Statement`
pub fn make_if_alone(alloc: Global, stack: &mut Vec<Value>) -> Result<bool, AllocError>
    ensures { IfOk result (λ fits. Fits fits (reverse stack.new.items) (after_statement_action statement_action.IfAlone (reverse stack.old.items))) }
{
    let first = take_statement(stack);
    let condition = take_expression(stack);
    let place = take_place(stack);
    let Some((first, condition, place)) = all_three(first, condition, place) else {
        return Ok(false);
    };
    let (first, condition) = boxed_with(alloc, first, condition)?;
    put(
        stack,
        Value::Statement(StatementValue::Statement(Statement::If(place, condition, first))),
    )?;
    Ok(true)
}

/// `Statement = "if" "(" Expression ")" Statement "else" Statement`
pub fn make_if_else(alloc: Global, stack: &mut Vec<Value>) -> Result<bool, AllocError>
    ensures { IfOk result (λ fits. Fits fits (reverse stack.new.items) (after_statement_action statement_action.IfElse (reverse stack.old.items))) }
{
    let second = take_statement(stack);
    let first = take_statement(stack);
    let condition = take_expression(stack);
    let place = take_place(stack);
    let Some((second, first, condition, place)) = all_four(second, first, condition, place) else {
        return Ok(false);
    };
    let (first, (second, condition)) = boxed_with(alloc, first, (second, condition))?;
    let (second, (first, condition)) = boxed_with(alloc, second, (first, condition))?;
    put(
        stack,
        Value::Statement(StatementValue::Statement(Statement::IfElse(
            place, condition, first, second,
        ))),
    )?;
    Ok(true)
}

/// `Statement = "while" "(" Expression ")" Statement`
pub fn make_while(alloc: Global, stack: &mut Vec<Value>) -> Result<bool, AllocError>
    ensures { IfOk result (λ fits. Fits fits (reverse stack.new.items) (after_statement_action statement_action.While (reverse stack.old.items))) }
{
    let body = take_statement(stack);
    let condition = take_expression(stack);
    let place = take_place(stack);
    let Some((body, condition, place)) = all_three(body, condition, place) else {
        return Ok(false);
    };
    let (body, condition) = boxed_with(alloc, body, condition)?;
    put(
        stack,
        Value::Statement(StatementValue::Statement(Statement::While(place, condition, body))),
    )?;
    Ok(true)
}

/// `Statement = "do" Statement "while" "(" Expression ")" ";"`
pub fn make_do(alloc: Global, stack: &mut Vec<Value>) -> Result<bool, AllocError>
    ensures { IfOk result (λ fits. Fits fits (reverse stack.new.items) (after_statement_action statement_action.Do (reverse stack.old.items))) }
{
    let condition = take_expression(stack);
    let body = take_statement(stack);
    let place = take_place(stack);
    let Some((condition, body, place)) = all_three(condition, body, place) else {
        return Ok(false);
    };
    let (body, condition) = boxed_with(alloc, body, condition)?;
    put(
        stack,
        Value::Statement(StatementValue::Statement(Statement::Do(place, body, condition))),
    )?;
    Ok(true)
}

/// `Statement = "switch" "(" Expression ")" "{" { Group } "}"`
pub fn make_switch(stack: &mut Vec<Value>) -> Result<bool, AllocError>
    ensures { IfOk result (λ fits. Fits fits (reverse stack.new.items) (after_statement_action statement_action.Switch (reverse stack.old.items))) }
{
    let groups = take_groups(stack);
    let given = take_expression(stack);
    let place = take_place(stack);
    let Some((groups, given, place)) = all_three(groups, given, place) else {
        return Ok(false);
    };
    put(
        stack,
        Value::Statement(StatementValue::Statement(Statement::Switch(place, given, groups))),
    )?;
    Ok(true)
}

/// `Statement = "break" ";"`
pub fn make_break(stack: &mut Vec<Value>) -> Result<bool, AllocError>
    ensures { IfOk result (λ fits. Fits fits (reverse stack.new.items) (after_statement_action statement_action.Break (reverse stack.old.items))) }
{
    let Some(place) = take_place(stack) else {
        return Ok(false);
    };
    put(
        stack,
        Value::Statement(StatementValue::Statement(Statement::Break(place))),
    )?;
    Ok(true)
}

/// `Statement = "continue" ";"`
pub fn make_continue(stack: &mut Vec<Value>) -> Result<bool, AllocError>
    ensures { IfOk result (λ fits. Fits fits (reverse stack.new.items) (after_statement_action statement_action.Continue (reverse stack.old.items))) }
{
    let Some(place) = take_place(stack) else {
        return Ok(false);
    };
    put(
        stack,
        Value::Statement(StatementValue::Statement(Statement::Continue(place))),
    )?;
    Ok(true)
}

/// `Statement = "return" [Init] ";"`
pub fn make_return(stack: &mut Vec<Value>) -> Result<bool, AllocError>
    ensures { IfOk result (λ fits. Fits fits (reverse stack.new.items) (after_statement_action statement_action.Return (reverse stack.old.items))) }
{
    let given = take_initializer_option(stack);
    let place = take_place(stack);
    let Some((given, place)) = all_two(given, place) else {
        return Ok(false);
    };
    put(
        stack,
        Value::Statement(StatementValue::Statement(Statement::Return(place, given))),
    )?;
    Ok(true)
}

/// `Statement = "assert" "(" Expression ")" ";"`
pub fn make_assert(stack: &mut Vec<Value>) -> Result<bool, AllocError>
    ensures { IfOk result (λ fits. Fits fits (reverse stack.new.items) (after_statement_action statement_action.Assert (reverse stack.old.items))) }
{
    let condition = take_expression(stack);
    let place = take_place(stack);
    let Some((condition, place)) = all_two(condition, place) else {
        return Ok(false);
    };
    put(
        stack,
        Value::Statement(StatementValue::Statement(Statement::Assert(place, condition))),
    )?;
    Ok(true)
}

/// `Statement = "__CPROVER_assert" "(" Expression "," STRING ")" ";"`
pub fn make_cprover_assert(stack: &mut Vec<Value>) -> Result<bool, AllocError>
    ensures { IfOk result (λ fits. Fits fits (reverse stack.new.items) (after_statement_action statement_action.CproverAssert (reverse stack.old.items))) }
{
    let condition = take_expression(stack);
    let place = take_place(stack);
    let Some((condition, place)) = all_two(condition, place) else {
        return Ok(false);
    };
    put(
        stack,
        Value::Statement(StatementValue::Statement(Statement::CproverAssert(place, condition))),
    )?;
    Ok(true)
}

/// `Statement = "__CPROVER_assume" "(" Expression ")" ";"`
pub fn make_cprover_assume(stack: &mut Vec<Value>) -> Result<bool, AllocError>
    ensures { IfOk result (λ fits. Fits fits (reverse stack.new.items) (after_statement_action statement_action.CproverAssume (reverse stack.old.items))) }
{
    let condition = take_expression(stack);
    let place = take_place(stack);
    let Some((condition, place)) = all_two(condition, place) else {
        return Ok(false);
    };
    put(
        stack,
        Value::Statement(StatementValue::Statement(Statement::CproverAssume(place, condition))),
    )?;
    Ok(true)
}

/// `Statement = "for" "(" ForFirst [Expression] ";" [Simple] ")" Statement`
pub fn make_for(alloc: Global, stack: &mut Vec<Value>) -> Result<bool, AllocError>
    ensures { IfOk result (λ fits. Fits fits (reverse stack.new.items) (after_statement_action statement_action.For (reverse stack.old.items))) }
{
    let body = take_statement(stack);
    let step = take_simple_option(stack);
    let condition = take_expression_option(stack);
    let first = take_for_first(stack);
    let place = take_place(stack);
    let Some((body, step, condition, first, place)) = all_five(body, step, condition, first, place)
    else {
        return Ok(false);
    };
    let (body, (step, condition, first, place)) = boxed_with(
        alloc,
        body,
        (step, condition, first, place),
    )?;
    put(
        stack,
        Value::Statement(StatementValue::Statement(Statement::For(
            place, first, condition, step, body,
        ))),
    )?;
    Ok(true)
}
