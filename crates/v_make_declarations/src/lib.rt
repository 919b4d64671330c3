//! Actions that make declarations, items, headers and modules of Verilog, as calls.
#![tactic(auto)]

mod declaration_actions;
mod module_actions;

pub use declaration_actions::{
    make_add_declarator, make_add_declared, make_add_name, make_add_parameter, make_add_register,
    make_declarator, make_initialized_register, make_memory, make_no_declarators, make_no_declared,
    make_no_kind, make_no_names, make_no_parameter_range, make_no_parameters, make_no_range,
    make_no_registers, make_parameter, make_plain_range, make_plain_register, make_range,
    make_reg_kind, make_signed, make_signed_range, make_some_range, make_unsigned, make_wire_kind,
};
pub use module_actions::{
    make_absent_header, make_add_item, make_add_module, make_always_item, make_assign_item,
    make_close_group, make_close_port, make_empty_header, make_header_names, make_header_ports,
    make_initial_item, make_instances_item, make_integer_item, make_local_parameter_item,
    make_module, make_net_item, make_no_groups, make_no_items, make_no_modules, make_no_ports,
    make_parameter_item, make_port_item, make_reg_item, make_source,
};
