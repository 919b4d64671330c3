//! Builds parts of declarations on a stack.
//!
//! Each `make_X` carries out the action X of `c_actions`: `Ok(true)` with the stack as `after_X` has it, or `Ok(false)` where the
//! values that it takes are not on top; the stack is then of no more use.
#![tactic(auto)]

mod declaration_actions;

pub use declaration_actions::{
    make_add_declarator, make_add_item, make_add_member, make_add_name, make_add_parameter,
    make_array_declarator, make_array_item, make_call_value, make_char_type, make_const_local,
    make_const_parameter, make_initialized, make_initialized_array, make_int_type,
    make_integer_members, make_local, make_long_type, make_no_initializer, make_no_name,
    make_no_parameters, make_one_declarator, make_one_item, make_one_member, make_one_name,
    make_one_parameter, make_parameter, make_plain_declarator, make_plain_item, make_short_type,
    make_some_initializer, make_some_name, make_struct_members, make_value,
};
