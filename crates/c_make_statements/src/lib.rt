//! Builds parts of statements and of files on a stack.
//!
//! Each `make_X` carries out the action X of `c_actions`: `Ok(true)` with the stack as `after_X` has it, or `Ok(false)` where the
//! values that it takes are not on top; the stack is then of no more use.
#![tactic(auto)]

mod file_actions;
mod statement_actions;

pub use file_actions::{
    make_add_external, make_bound, make_const_globals, make_definition, make_extern, make_file,
    make_function, make_function_name, make_globals, make_integer_function, make_mirror,
    make_no_externals, make_no_storage, make_one_external, make_struct, make_void_function,
};
pub use statement_actions::{
    make_add_group, make_add_label, make_add_local, make_add_statement, make_add_to_group,
    make_assert, make_assign, make_block, make_break, make_call, make_case, make_compound,
    make_continue, make_cprover_assert, make_cprover_assume, make_default, make_do, make_empty,
    make_first_label, make_for, make_for_local, make_for_nothing, make_for_simple, make_group,
    make_if_alone, make_if_else, make_labelled, make_no_groups, make_no_items, make_no_simple,
    make_return, make_simple, make_some_simple, make_step_after, make_step_before, make_switch,
    make_update, make_while,
};
