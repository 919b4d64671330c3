//! Actions of connections, continuous assignments and events (IEEE 1364-2005, 6.1, 9.7 and 12.3).

ghost use Rattle.std.specs.Prelude.{IfOk, reverse};
ghost use Rattle.v_actions.specs.ConnectionActions.{after_connection_action};
ghost use Rattle.v_actions.specs.declared.actions.ConnectionAction.TheVariants as ConnectionAction;
ghost use Rattle.v_stack.specs.Values.{Fits};

use sqlite_items::Items;
use stack_parts::{all_three, all_two};
use std::alloc::{AllocError, Global};
use v_stack::{
    ConnectValue, PartValue, Value, put, take_connections, take_expr, take_expr_option,
    take_instance, take_instances, take_name, take_named, take_named_values, take_names,
    take_net_assignment, take_net_assignments, take_ordered, take_ordered_values, take_place,
    take_target,
};
use v_tree::{Connections, Event, Instance, NamedConnection, NetAssignment};

/// A connection by position.
pub fn make_ordered(stack: &mut Vec<Value>) -> Result<bool, AllocError>
    ensures { IfOk result (λ fits. Fits fits (reverse stack.new.items) (after_connection_action ConnectionAction.Ordered (reverse stack.old.items))) }
{
    let Some(value) = take_expr(stack) else {
        return Ok(false);
    };
    put(stack, Value::Connect(ConnectValue::Ordered(value)))?;
    Ok(true)
}

/// No connections by position yet.
pub fn make_no_ordered(alloc: Global, stack: &mut Vec<Value>) -> Result<bool, AllocError>
    ensures { IfOk result (λ fits. Fits fits (reverse stack.new.items) (after_connection_action ConnectionAction.NoOrdered (reverse stack.old.items))) }
{
    put(
        stack,
        Value::Connect(ConnectValue::OrderedValues(Items::new(alloc))),
    )?;
    Ok(true)
}

/// One more of the connections by position.
pub fn make_add_ordered(stack: &mut Vec<Value>) -> Result<bool, AllocError>
    ensures { IfOk result (λ fits. Fits fits (reverse stack.new.items) (after_connection_action ConnectionAction.AddOrdered (reverse stack.old.items))) }
{
    let value = take_ordered(stack);
    let values = take_ordered_values(stack);
    let Some((value, mut values)) = all_two(value, values) else {
        return Ok(false);
    };
    values.push(value)?;
    put(stack, Value::Connect(ConnectValue::OrderedValues(values)))?;
    Ok(true)
}

/// `. name ( value )`
pub fn make_named(stack: &mut Vec<Value>) -> Result<bool, AllocError>
    ensures { IfOk result (λ fits. Fits fits (reverse stack.new.items) (after_connection_action ConnectionAction.Named (reverse stack.old.items))) }
{
    let value = take_expr_option(stack);
    let name = take_name(stack);
    let place = take_place(stack);
    let Some((value, name, place)) = all_three(value, name, place) else {
        return Ok(false);
    };
    put(
        stack,
        Value::Connect(ConnectValue::Named(NamedConnection { place, name, value })),
    )?;
    Ok(true)
}

/// No connections by name yet.
pub fn make_no_named(alloc: Global, stack: &mut Vec<Value>) -> Result<bool, AllocError>
    ensures { IfOk result (λ fits. Fits fits (reverse stack.new.items) (after_connection_action ConnectionAction.NoNamed (reverse stack.old.items))) }
{
    put(
        stack,
        Value::Connect(ConnectValue::NamedValues(Items::new(alloc))),
    )?;
    Ok(true)
}

/// One more of the connections by name.
pub fn make_add_named(stack: &mut Vec<Value>) -> Result<bool, AllocError>
    ensures { IfOk result (λ fits. Fits fits (reverse stack.new.items) (after_connection_action ConnectionAction.AddNamed (reverse stack.old.items))) }
{
    let connection = take_named(stack);
    let connections = take_named_values(stack);
    let Some((connection, mut connections)) = all_two(connection, connections) else {
        return Ok(false);
    };
    connections.push(connection)?;
    put(
        stack,
        Value::Connect(ConnectValue::NamedValues(connections)),
    )?;
    Ok(true)
}

/// No connections.
pub fn make_no_connections(stack: &mut Vec<Value>) -> Result<bool, AllocError>
    ensures { IfOk result (λ fits. Fits fits (reverse stack.new.items) (after_connection_action ConnectionAction.NoConnections (reverse stack.old.items))) }
{
    put(
        stack,
        Value::Connect(ConnectValue::Connections(Connections::Absent)),
    )?;
    Ok(true)
}

/// All by position.
pub fn make_ordered_connections(stack: &mut Vec<Value>) -> Result<bool, AllocError>
    ensures { IfOk result (λ fits. Fits fits (reverse stack.new.items) (after_connection_action ConnectionAction.OrderedConnections (reverse stack.old.items))) }
{
    let Some(values) = take_ordered_values(stack) else {
        return Ok(false);
    };
    put(
        stack,
        Value::Connect(ConnectValue::Connections(Connections::Ordered(values))),
    )?;
    Ok(true)
}

/// All by name.
pub fn make_named_connections(stack: &mut Vec<Value>) -> Result<bool, AllocError>
    ensures { IfOk result (λ fits. Fits fits (reverse stack.new.items) (after_connection_action ConnectionAction.NamedConnections (reverse stack.old.items))) }
{
    let Some(values) = take_named_values(stack) else {
        return Ok(false);
    };
    put(
        stack,
        Value::Connect(ConnectValue::Connections(Connections::Named(values))),
    )?;
    Ok(true)
}

/// `# ( values )`
pub fn make_some_overrides(stack: &mut Vec<Value>) -> Result<bool, AllocError>
    ensures { IfOk result (λ fits. Fits fits (reverse stack.new.items) (after_connection_action ConnectionAction.SomeOverrides (reverse stack.old.items))) }
{
    let Some(values) = take_connections(stack) else {
        return Ok(false);
    };
    put(stack, Value::Connect(ConnectValue::Overrides(Some(values))))?;
    Ok(true)
}

/// No `#`.
pub fn make_no_overrides(stack: &mut Vec<Value>) -> Result<bool, AllocError>
    ensures { IfOk result (λ fits. Fits fits (reverse stack.new.items) (after_connection_action ConnectionAction.NoOverrides (reverse stack.old.items))) }
{
    put(stack, Value::Connect(ConnectValue::Overrides(None)))?;
    Ok(true)
}

/// `name ( connections )`
pub fn make_instance(stack: &mut Vec<Value>) -> Result<bool, AllocError>
    ensures { IfOk result (λ fits. Fits fits (reverse stack.new.items) (after_connection_action ConnectionAction.Instance (reverse stack.old.items))) }
{
    let connections = take_connections(stack);
    let name = take_name(stack);
    let Some((connections, name)) = all_two(connections, name) else {
        return Ok(false);
    };
    put(
        stack,
        Value::Part(PartValue::Instance(Instance { name, connections })),
    )?;
    Ok(true)
}

/// No instances yet.
pub fn make_no_instances(alloc: Global, stack: &mut Vec<Value>) -> Result<bool, AllocError>
    ensures { IfOk result (λ fits. Fits fits (reverse stack.new.items) (after_connection_action ConnectionAction.NoInstances (reverse stack.old.items))) }
{
    put(stack, Value::Part(PartValue::Instances(Items::new(alloc))))?;
    Ok(true)
}

/// One more of the instances.
pub fn make_add_instance(stack: &mut Vec<Value>) -> Result<bool, AllocError>
    ensures { IfOk result (λ fits. Fits fits (reverse stack.new.items) (after_connection_action ConnectionAction.AddInstance (reverse stack.old.items))) }
{
    let instance = take_instance(stack);
    let instances = take_instances(stack);
    let Some((instance, mut instances)) = all_two(instance, instances) else {
        return Ok(false);
    };
    instances.push(instance)?;
    put(stack, Value::Part(PartValue::Instances(instances)))?;
    Ok(true)
}

/// `target = value` of `assign`.
pub fn make_net_assignment(stack: &mut Vec<Value>) -> Result<bool, AllocError>
    ensures { IfOk result (λ fits. Fits fits (reverse stack.new.items) (after_connection_action ConnectionAction.NetAssignment (reverse stack.old.items))) }
{
    let value = take_expr(stack);
    let target = take_target(stack);
    let Some((value, target)) = all_two(value, target) else {
        return Ok(false);
    };
    put(
        stack,
        Value::Part(PartValue::NetAssignment(NetAssignment { target, value })),
    )?;
    Ok(true)
}

/// No assignments yet.
pub fn make_no_net_assignments(alloc: Global, stack: &mut Vec<Value>) -> Result<bool, AllocError>
    ensures { IfOk result (λ fits. Fits fits (reverse stack.new.items) (after_connection_action ConnectionAction.NoNetAssignments (reverse stack.old.items))) }
{
    put(
        stack,
        Value::Part(PartValue::NetAssignments(Items::new(alloc))),
    )?;
    Ok(true)
}

/// One more of the assignments.
pub fn make_add_net_assignment(stack: &mut Vec<Value>) -> Result<bool, AllocError>
    ensures { IfOk result (λ fits. Fits fits (reverse stack.new.items) (after_connection_action ConnectionAction.AddNetAssignment (reverse stack.old.items))) }
{
    let assignment = take_net_assignment(stack);
    let assignments = take_net_assignments(stack);
    let Some((assignment, mut assignments)) = all_two(assignment, assignments) else {
        return Ok(false);
    };
    assignments.push(assignment)?;
    put(stack, Value::Part(PartValue::NetAssignments(assignments)))?;
    Ok(true)
}

/// `*`
pub fn make_any_event(stack: &mut Vec<Value>) -> Result<bool, AllocError>
    ensures { IfOk result (λ fits. Fits fits (reverse stack.new.items) (after_connection_action ConnectionAction.AnyEvent (reverse stack.old.items))) }
{
    put(stack, Value::Part(PartValue::Event(Event::All)))?;
    Ok(true)
}

/// `posedge clock`
pub fn make_posedge_event(stack: &mut Vec<Value>) -> Result<bool, AllocError>
    ensures { IfOk result (λ fits. Fits fits (reverse stack.new.items) (after_connection_action ConnectionAction.PosedgeEvent (reverse stack.old.items))) }
{
    let Some(clock) = take_name(stack) else {
        return Ok(false);
    };
    put(stack, Value::Part(PartValue::Event(Event::Posedge(clock))))?;
    Ok(true)
}

/// `a or b`
pub fn make_names_event(stack: &mut Vec<Value>) -> Result<bool, AllocError>
    ensures { IfOk result (λ fits. Fits fits (reverse stack.new.items) (after_connection_action ConnectionAction.NamesEvent (reverse stack.old.items))) }
{
    let Some(names) = take_names(stack) else {
        return Ok(false);
    };
    put(stack, Value::Part(PartValue::Event(Event::Names(names))))?;
    Ok(true)
}
