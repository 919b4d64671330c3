//! Actions of connections, continuous assignments and events (IEEE 1364-2005, 6.1, 9.7 and 12.3).

ghost use Rattle.std.specs.Prelude.{IfOk, reverse};
ghost use Rattle.v_stack.specs.Values.{Fits};
ghost use Rattle.v_actions.specs.ConnectionActions.{after_connection_action};

use std::alloc::{AllocError, Global};
use v_actions::ConnectionAction;
use v_make_statements::{
    make_add_instance, make_add_named, make_add_net_assignment, make_add_ordered, make_any_event,
    make_instance, make_named, make_named_connections, make_names_event, make_net_assignment,
    make_no_connections, make_no_instances, make_no_named, make_no_net_assignments,
    make_no_ordered, make_no_overrides, make_ordered, make_ordered_connections, make_posedge_event,
    make_some_overrides,
};
use v_stack::Value;

/// Makes a connection, a continuous assignment or an event.
pub fn act_connect(
    alloc: Global,
    stack: &mut Vec<Value>,
    action: ConnectionAction,
) -> Result<bool, AllocError>
    ensures { IfOk result (λ fits. Fits fits (reverse stack.new.items) (after_connection_action action (reverse stack.old.items))) }
{
    match action {
        ConnectionAction::Ordered => make_ordered(stack),
        ConnectionAction::NoOrdered => make_no_ordered(alloc, stack),
        ConnectionAction::AddOrdered => make_add_ordered(stack),
        ConnectionAction::Named => make_named(stack),
        ConnectionAction::NoNamed => make_no_named(alloc, stack),
        ConnectionAction::AddNamed => make_add_named(stack),
        ConnectionAction::NoConnections => make_no_connections(stack),
        ConnectionAction::OrderedConnections => make_ordered_connections(stack),
        ConnectionAction::NamedConnections => make_named_connections(stack),
        ConnectionAction::SomeOverrides => make_some_overrides(stack),
        ConnectionAction::NoOverrides => make_no_overrides(stack),
        ConnectionAction::Instance => make_instance(stack),
        ConnectionAction::NoInstances => make_no_instances(alloc, stack),
        ConnectionAction::AddInstance => make_add_instance(stack),
        ConnectionAction::NetAssignment => make_net_assignment(stack),
        ConnectionAction::NoNetAssignments => make_no_net_assignments(alloc, stack),
        ConnectionAction::AddNetAssignment => make_add_net_assignment(stack),
        ConnectionAction::AnyEvent => make_any_event(stack),
        ConnectionAction::PosedgeEvent => make_posedge_event(stack),
        ConnectionAction::NamesEvent => make_names_event(stack),
    }
}
