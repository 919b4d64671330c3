//! Actions of external declarations (ISO C99, 6.9).

ghost use Rattle.std.specs.Prelude.{IfOk, reverse};
ghost use Rattle.c_stack.specs.Values.{Fits};
ghost use Rattle.c_actions.specs.Acts.{after_file_action};

use c_actions::FileAction;
use c_make_statements::{
    make_add_external, make_bound, make_const_globals, make_definition, make_extern, make_file,
    make_function, make_function_name, make_globals, make_integer_function, make_mirror,
    make_no_externals, make_no_storage, make_one_external, make_struct, make_void_function,
};
use c_stack::Value;
use src_text::Place;
use std::alloc::{AllocError, Global};

/// Carries out an action of the file, which ends at this place.
pub fn act_file(
    alloc: Global,
    stack: &mut Vec<Value>,
    action: FileAction,
    end: Place,
) -> Result<bool, AllocError>
    ensures { IfOk result (λ fits. Fits fits (reverse stack.new.items) (after_file_action action end (reverse stack.old.items))) }
{
    match action {
        FileAction::NoStorage => make_no_storage(stack),
        FileAction::Extern => make_extern(stack),
        FileAction::FunctionName => make_function_name(stack),
        FileAction::VoidFunction => make_void_function(stack),
        FileAction::IntegerFunction => make_integer_function(stack),
        FileAction::Function => make_function(stack),
        FileAction::Definition => make_definition(stack),
        FileAction::Globals => make_globals(stack),
        FileAction::ConstGlobals => make_const_globals(stack),
        FileAction::Struct => make_struct(stack),
        FileAction::Mirror => make_mirror(stack),
        FileAction::Bound => make_bound(stack),
        FileAction::NoExternals => make_no_externals(alloc, stack),
        FileAction::OneExternal => make_one_external(alloc, stack),
        FileAction::AddExternal => make_add_external(stack),
        FileAction::File => make_file(stack, end),
    }
}
