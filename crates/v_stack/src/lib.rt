//! The values from which the tree of a Verilog text is built, on a stack: how a value of a sort is taken off it, and put there.
#![tactic(auto)]

mod values;

pub use values::{
    ConnectValue, DeclareValue, ExprValue, ModuleValue, NamesValue, PartValue, StmtValue,
    TokenValue, Value, put, take_assignment_kind, take_based, take_binary_operator, take_case_item,
    take_case_items, take_connections, take_decimal, take_declarator, take_declarators,
    take_declared, take_declared_names, take_direction, take_event, take_expr, take_expr_option,
    take_exprs, take_groups, take_header, take_instance, take_instances, take_item, take_items,
    take_label, take_module, take_modules, take_name, take_named, take_named_values, take_names,
    take_net_assignment, take_net_assignments, take_net_kind, take_ordered, take_ordered_values,
    take_overrides, take_parameter, take_parameter_range, take_parameters, take_place, take_ports,
    take_range, take_range_option, take_register, take_registers, take_selection, take_sign,
    take_source, take_stmt, take_stmts, take_target, take_targets, take_unary_operator,
};
