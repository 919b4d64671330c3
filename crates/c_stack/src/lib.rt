//! The values from which the tree of a C text is built, on a stack: how a value of a sort is taken off it, and put there.
#![tactic(auto)]

mod values;

pub use values::{
    DeclarationValue, ExpressionValue, FileValue, FunctionName, Labels, PartValue, StatementValue,
    SwitchValue, TokenValue, Value, put, take_assignment_mark, take_binary_mark, take_block,
    take_declarator, take_declarators, take_declared, take_expression, take_expression_option,
    take_expressions, take_external, take_externals, take_for_first, take_function, take_group,
    take_groups, take_initializer, take_initializer_option, take_item, take_items, take_label,
    take_labelled, take_labels, take_local, take_member, take_members, take_name, take_name_option,
    take_names, take_object, take_parameter, take_parameters, take_parts, take_path, take_place,
    take_sign, take_simple, take_simple_option, take_statement, take_step_mark, take_storage,
    take_tree, take_type, take_unary_mark,
};
