//! Actions that make statements, targets, connections, continuous assignments and events of Verilog, as calls.
#![tactic(auto)]

mod connection_actions;
mod statement_actions;

pub use connection_actions::{
    make_add_instance, make_add_named, make_add_net_assignment, make_add_ordered, make_any_event,
    make_instance, make_named, make_named_connections, make_names_event, make_net_assignment,
    make_no_connections, make_no_instances, make_no_named, make_no_net_assignments,
    make_no_ordered, make_no_overrides, make_ordered, make_ordered_connections, make_posedge_event,
    make_some_overrides,
};
pub use statement_actions::{
    make_add_case_item, make_add_stmt, make_add_target, make_assignment, make_block, make_blocking,
    make_case, make_casez, make_default_item, make_empty, make_for, make_if_alone, make_if_else,
    make_no_case_items, make_no_label, make_no_stmts, make_no_targets, make_nonblocking,
    make_some_label, make_target_concatenation, make_target_name, make_target_select,
    make_values_item,
};
