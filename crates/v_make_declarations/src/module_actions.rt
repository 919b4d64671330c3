//! Actions of items, headers and modules (IEEE 1364-2005, clause 12).

ghost use Rattle.std.specs.Prelude.{IfOk, reverse};
ghost use Rattle.v_actions.specs.ModuleActions.{after_module_action};
ghost use Rattle.v_actions.specs.declared.actions.ModuleAction.TheVariants as ModuleAction;
ghost use Rattle.v_stack.specs.Values.{Fits};

use sqlite_items::Items;
use stack_parts::{all_five, all_four, all_six, all_three, all_two};
use std::alloc::{AllocError, Global};
use v_stack::{
    DeclareValue, ModuleValue, Value, put, take_declarators, take_declared_names, take_direction,
    take_event, take_groups, take_header, take_instances, take_item, take_items, take_module,
    take_modules, take_name, take_names, take_net_assignments, take_net_kind, take_overrides,
    take_parameter_range, take_parameters, take_place, take_ports, take_range_option,
    take_registers, take_sign, take_stmt,
};
use v_tree::{
    AlwaysConstruct, ContinuousAssign, Header, IntegerDeclaration, Item, Module,
    ModuleInstantiation, NetDeclaration, ParameterDeclaration, Port, PortDeclaration,
    RegDeclaration, VTree,
};

/// `input ..;`
pub fn make_port_item(stack: &mut Vec<Value>) -> Result<bool, AllocError>
    ensures { IfOk result (λ fits. Fits fits (reverse stack.new.items) (after_module_action ModuleAction.PortItem (reverse stack.old.items))) }
{
    let names = take_declared_names(stack);
    let range = take_range_option(stack);
    let signed = take_sign(stack);
    let net = take_net_kind(stack);
    let direction = take_direction(stack);
    let Some((names, range, signed, net, direction)) = all_five(
        names, range, signed, net, direction,
    ) else {
        return Ok(false);
    };
    put(
        stack,
        Value::Module(ModuleValue::Item(Item::Port(PortDeclaration {
            direction,
            net,
            signed,
            range,
            names,
        }))),
    )?;
    Ok(true)
}

/// `wire ..;`
pub fn make_net_item(stack: &mut Vec<Value>) -> Result<bool, AllocError>
    ensures { IfOk result (λ fits. Fits fits (reverse stack.new.items) (after_module_action ModuleAction.NetItem (reverse stack.old.items))) }
{
    let nets = take_declarators(stack);
    let range = take_range_option(stack);
    let signed = take_sign(stack);
    let place = take_place(stack);
    let Some((nets, range, signed, place)) = all_four(nets, range, signed, place) else {
        return Ok(false);
    };
    put(
        stack,
        Value::Module(ModuleValue::Item(Item::Net(NetDeclaration {
            place,
            signed,
            range,
            nets,
        }))),
    )?;
    Ok(true)
}

/// `reg ..;`
pub fn make_reg_item(stack: &mut Vec<Value>) -> Result<bool, AllocError>
    ensures { IfOk result (λ fits. Fits fits (reverse stack.new.items) (after_module_action ModuleAction.RegItem (reverse stack.old.items))) }
{
    let registers = take_registers(stack);
    let range = take_range_option(stack);
    let signed = take_sign(stack);
    let place = take_place(stack);
    let Some((registers, range, signed, place)) = all_four(registers, range, signed, place) else {
        return Ok(false);
    };
    put(
        stack,
        Value::Module(ModuleValue::Item(Item::Reg(RegDeclaration {
            place,
            signed,
            range,
            registers,
        }))),
    )?;
    Ok(true)
}

/// `integer ..;`
pub fn make_integer_item(stack: &mut Vec<Value>) -> Result<bool, AllocError>
    ensures { IfOk result (λ fits. Fits fits (reverse stack.new.items) (after_module_action ModuleAction.IntegerItem (reverse stack.old.items))) }
{
    let names = take_declared_names(stack);
    let place = take_place(stack);
    let Some((names, place)) = all_two(names, place) else {
        return Ok(false);
    };
    put(
        stack,
        Value::Module(ModuleValue::Item(Item::Integer(IntegerDeclaration { place, names }))),
    )?;
    Ok(true)
}

/// `parameter ..;`
pub fn make_parameter_item(stack: &mut Vec<Value>) -> Result<bool, AllocError>
    ensures { IfOk result (λ fits. Fits fits (reverse stack.new.items) (after_module_action ModuleAction.ParameterItem (reverse stack.old.items))) }
{
    let parameters = take_parameters(stack);
    let range = take_parameter_range(stack);
    let place = take_place(stack);
    let Some((parameters, range, place)) = all_three(parameters, range, place) else {
        return Ok(false);
    };
    put(
        stack,
        Value::Module(ModuleValue::Item(Item::Parameter(ParameterDeclaration {
            place,
            range,
            parameters,
        }))),
    )?;
    Ok(true)
}

/// `localparam ..;`
pub fn make_local_parameter_item(stack: &mut Vec<Value>) -> Result<bool, AllocError>
    ensures { IfOk result (λ fits. Fits fits (reverse stack.new.items) (after_module_action ModuleAction.LocalParameterItem (reverse stack.old.items))) }
{
    let parameters = take_parameters(stack);
    let range = take_parameter_range(stack);
    let place = take_place(stack);
    let Some((parameters, range, place)) = all_three(parameters, range, place) else {
        return Ok(false);
    };
    put(
        stack,
        Value::Module(ModuleValue::Item(Item::LocalParameter(ParameterDeclaration {
            place,
            range,
            parameters,
        }))),
    )?;
    Ok(true)
}

/// `assign ..;`
pub fn make_assign_item(stack: &mut Vec<Value>) -> Result<bool, AllocError>
    ensures { IfOk result (λ fits. Fits fits (reverse stack.new.items) (after_module_action ModuleAction.AssignItem (reverse stack.old.items))) }
{
    let assignments = take_net_assignments(stack);
    let place = take_place(stack);
    let Some((assignments, place)) = all_two(assignments, place) else {
        return Ok(false);
    };
    put(
        stack,
        Value::Module(ModuleValue::Item(Item::Assign(ContinuousAssign { place, assignments }))),
    )?;
    Ok(true)
}

/// `always event body`
pub fn make_always_item(stack: &mut Vec<Value>) -> Result<bool, AllocError>
    ensures { IfOk result (λ fits. Fits fits (reverse stack.new.items) (after_module_action ModuleAction.AlwaysItem (reverse stack.old.items))) }
{
    let body = take_stmt(stack);
    let event = take_event(stack);
    let place = take_place(stack);
    let Some((body, event, place)) = all_three(body, event, place) else {
        return Ok(false);
    };
    put(
        stack,
        Value::Module(ModuleValue::Item(Item::Always(AlwaysConstruct { place, event, body }))),
    )?;
    Ok(true)
}

/// `initial body`
pub fn make_initial_item(stack: &mut Vec<Value>) -> Result<bool, AllocError>
    ensures { IfOk result (λ fits. Fits fits (reverse stack.new.items) (after_module_action ModuleAction.InitialItem (reverse stack.old.items))) }
{
    let body = take_stmt(stack);
    let place = take_place(stack);
    let Some((body, place)) = all_two(body, place) else {
        return Ok(false);
    };
    put(
        stack,
        Value::Module(ModuleValue::Item(Item::Initial(place, body))),
    )?;
    Ok(true)
}

/// Instances of a module.
pub fn make_instances_item(stack: &mut Vec<Value>) -> Result<bool, AllocError>
    ensures { IfOk result (λ fits. Fits fits (reverse stack.new.items) (after_module_action ModuleAction.InstancesItem (reverse stack.old.items))) }
{
    let instances = take_instances(stack);
    let overrides = take_overrides(stack);
    let kind = take_name(stack);
    let Some((instances, overrides, kind)) = all_three(instances, overrides, kind) else {
        return Ok(false);
    };
    put(
        stack,
        Value::Module(ModuleValue::Item(Item::Instances(ModuleInstantiation {
            module: kind,
            overrides,
            instances,
        }))),
    )?;
    Ok(true)
}

/// No items yet.
pub fn make_no_items(alloc: Global, stack: &mut Vec<Value>) -> Result<bool, AllocError>
    ensures { IfOk result (λ fits. Fits fits (reverse stack.new.items) (after_module_action ModuleAction.NoItems (reverse stack.old.items))) }
{
    put(stack, Value::Module(ModuleValue::Items(Items::new(alloc))))?;
    Ok(true)
}

/// One more of the items.
pub fn make_add_item(stack: &mut Vec<Value>) -> Result<bool, AllocError>
    ensures { IfOk result (λ fits. Fits fits (reverse stack.new.items) (after_module_action ModuleAction.AddItem (reverse stack.old.items))) }
{
    let item = take_item(stack);
    let items = take_items(stack);
    let Some((item, mut items)) = all_two(item, items) else {
        return Ok(false);
    };
    items.push(item)?;
    put(stack, Value::Module(ModuleValue::Items(items)))?;
    Ok(true)
}

/// No parameters in a header yet.
pub fn make_no_groups(alloc: Global, stack: &mut Vec<Value>) -> Result<bool, AllocError>
    ensures { IfOk result (λ fits. Fits fits (reverse stack.new.items) (after_module_action ModuleAction.NoGroups (reverse stack.old.items))) }
{
    put(
        stack,
        Value::Declare(DeclareValue::Groups(Items::new(alloc))),
    )?;
    Ok(true)
}

/// One more `parameter ..` of a header.
pub fn make_close_group(stack: &mut Vec<Value>) -> Result<bool, AllocError>
    ensures { IfOk result (λ fits. Fits fits (reverse stack.new.items) (after_module_action ModuleAction.CloseGroup (reverse stack.old.items))) }
{
    let parameters = take_parameters(stack);
    let range = take_parameter_range(stack);
    let place = take_place(stack);
    let groups = take_groups(stack);
    let Some((parameters, range, place, mut groups)) = all_four(parameters, range, place, groups)
    else {
        return Ok(false);
    };
    groups.push(ParameterDeclaration {
        place,
        range,
        parameters,
    })?;
    put(stack, Value::Declare(DeclareValue::Groups(groups)))?;
    Ok(true)
}

/// No ports in a header yet.
pub fn make_no_ports(alloc: Global, stack: &mut Vec<Value>) -> Result<bool, AllocError>
    ensures { IfOk result (λ fits. Fits fits (reverse stack.new.items) (after_module_action ModuleAction.NoPorts (reverse stack.old.items))) }
{
    put(stack, Value::Module(ModuleValue::Ports(Items::new(alloc))))?;
    Ok(true)
}

/// One more `input ..` of a header.
pub fn make_close_port(stack: &mut Vec<Value>) -> Result<bool, AllocError>
    ensures { IfOk result (λ fits. Fits fits (reverse stack.new.items) (after_module_action ModuleAction.ClosePort (reverse stack.old.items))) }
{
    let names = take_declarators(stack);
    let range = take_range_option(stack);
    let signed = take_sign(stack);
    let net = take_net_kind(stack);
    let direction = take_direction(stack);
    let ports = take_ports(stack);
    let Some((names, range, signed, net, direction, mut ports)) = all_six(
        names, range, signed, net, direction, ports,
    ) else {
        return Ok(false);
    };
    ports.push(Port {
        direction,
        net,
        signed,
        range,
        names,
    })?;
    put(stack, Value::Module(ModuleValue::Ports(ports)))?;
    Ok(true)
}

/// No header.
pub fn make_absent_header(stack: &mut Vec<Value>) -> Result<bool, AllocError>
    ensures { IfOk result (λ fits. Fits fits (reverse stack.new.items) (after_module_action ModuleAction.AbsentHeader (reverse stack.old.items))) }
{
    put(stack, Value::Module(ModuleValue::Header(Header::Absent)))?;
    Ok(true)
}

/// `( )`
pub fn make_empty_header(stack: &mut Vec<Value>) -> Result<bool, AllocError>
    ensures { IfOk result (λ fits. Fits fits (reverse stack.new.items) (after_module_action ModuleAction.EmptyHeader (reverse stack.old.items))) }
{
    put(stack, Value::Module(ModuleValue::Header(Header::Empty)))?;
    Ok(true)
}

/// `( a, b )`
pub fn make_header_names(stack: &mut Vec<Value>) -> Result<bool, AllocError>
    ensures { IfOk result (λ fits. Fits fits (reverse stack.new.items) (after_module_action ModuleAction.HeaderNames (reverse stack.old.items))) }
{
    let Some(names) = take_names(stack) else {
        return Ok(false);
    };
    put(
        stack,
        Value::Module(ModuleValue::Header(Header::Names(names))),
    )?;
    Ok(true)
}

/// `( input a, output b )`
pub fn make_header_ports(stack: &mut Vec<Value>) -> Result<bool, AllocError>
    ensures { IfOk result (λ fits. Fits fits (reverse stack.new.items) (after_module_action ModuleAction.HeaderPorts (reverse stack.old.items))) }
{
    let Some(ports) = take_ports(stack) else {
        return Ok(false);
    };
    put(
        stack,
        Value::Module(ModuleValue::Header(Header::Ports(ports))),
    )?;
    Ok(true)
}

/// `module name .. endmodule`
pub fn make_module(stack: &mut Vec<Value>) -> Result<bool, AllocError>
    ensures { IfOk result (λ fits. Fits fits (reverse stack.new.items) (after_module_action ModuleAction.Module (reverse stack.old.items))) }
{
    let items = take_items(stack);
    let header = take_header(stack);
    let groups = take_groups(stack);
    let name = take_name(stack);
    let place = take_place(stack);
    let Some((items, header, groups, name, place)) = all_five(items, header, groups, name, place)
    else {
        return Ok(false);
    };
    put(
        stack,
        Value::Module(ModuleValue::Module(Module {
            place,
            name,
            parameters: groups,
            header,
            items,
        })),
    )?;
    Ok(true)
}

/// No modules yet.
pub fn make_no_modules(alloc: Global, stack: &mut Vec<Value>) -> Result<bool, AllocError>
    ensures { IfOk result (λ fits. Fits fits (reverse stack.new.items) (after_module_action ModuleAction.NoModules (reverse stack.old.items))) }
{
    put(
        stack,
        Value::Module(ModuleValue::Modules(Items::new(alloc))),
    )?;
    Ok(true)
}

/// One more of the modules.
pub fn make_add_module(stack: &mut Vec<Value>) -> Result<bool, AllocError>
    ensures { IfOk result (λ fits. Fits fits (reverse stack.new.items) (after_module_action ModuleAction.AddModule (reverse stack.old.items))) }
{
    let unit = take_module(stack);
    let units = take_modules(stack);
    let Some((unit, mut units)) = all_two(unit, units) else {
        return Ok(false);
    };
    units.push(unit)?;
    put(stack, Value::Module(ModuleValue::Modules(units)))?;
    Ok(true)
}

/// The whole text.
pub fn make_source(stack: &mut Vec<Value>) -> Result<bool, AllocError>
    ensures { IfOk result (λ fits. Fits fits (reverse stack.new.items) (after_module_action ModuleAction.Source (reverse stack.old.items))) }
{
    let Some(modules) = take_modules(stack) else {
        return Ok(false);
    };
    put(stack, Value::Module(ModuleValue::Source(VTree { modules })))?;
    Ok(true)
}
