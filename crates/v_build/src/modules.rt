//! Actions of items, headers and modules (IEEE 1364-2005, clause 12).

ghost use Rattle.std.specs.Prelude.{IfOk, reverse};
ghost use Rattle.v_stack.specs.Values.{Fits};
ghost use Rattle.v_actions.specs.ModuleActions.{after_module_action};

use std::alloc::{AllocError, Global};
use v_actions::ModuleAction;
use v_make_declarations::{
    make_absent_header, make_add_item, make_add_module, make_always_item, make_assign_item,
    make_close_group, make_close_port, make_empty_header, make_header_names, make_header_ports,
    make_initial_item, make_instances_item, make_integer_item, make_local_parameter_item,
    make_module, make_net_item, make_no_groups, make_no_items, make_no_modules, make_no_ports,
    make_parameter_item, make_port_item, make_reg_item, make_source,
};
use v_stack::Value;

/// Makes an item, a header or a module.
pub fn act_module(
    alloc: Global,
    stack: &mut Vec<Value>,
    action: ModuleAction,
) -> Result<bool, AllocError>
    ensures { IfOk result (λ fits. Fits fits (reverse stack.new.items) (after_module_action action (reverse stack.old.items))) }
{
    match action {
        ModuleAction::PortItem => make_port_item(stack),
        ModuleAction::NetItem => make_net_item(stack),
        ModuleAction::RegItem => make_reg_item(stack),
        ModuleAction::IntegerItem => make_integer_item(stack),
        ModuleAction::ParameterItem => make_parameter_item(stack),
        ModuleAction::LocalParameterItem => make_local_parameter_item(stack),
        ModuleAction::AssignItem => make_assign_item(stack),
        ModuleAction::AlwaysItem => make_always_item(stack),
        ModuleAction::InitialItem => make_initial_item(stack),
        ModuleAction::InstancesItem => make_instances_item(stack),
        ModuleAction::NoItems => make_no_items(alloc, stack),
        ModuleAction::AddItem => make_add_item(stack),
        ModuleAction::NoGroups => make_no_groups(alloc, stack),
        ModuleAction::CloseGroup => make_close_group(stack),
        ModuleAction::NoPorts => make_no_ports(alloc, stack),
        ModuleAction::ClosePort => make_close_port(stack),
        ModuleAction::AbsentHeader => make_absent_header(stack),
        ModuleAction::EmptyHeader => make_empty_header(stack),
        ModuleAction::HeaderNames => make_header_names(stack),
        ModuleAction::HeaderPorts => make_header_ports(stack),
        ModuleAction::Module => make_module(stack),
        ModuleAction::NoModules => make_no_modules(alloc, stack),
        ModuleAction::AddModule => make_add_module(stack),
        ModuleAction::Source => make_source(stack),
    }
}
