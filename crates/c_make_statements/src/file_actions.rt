//! Actions of external declarations (ISO C99, 6.9).

ghost use Rattle.std.specs.Prelude.{IfOk, reverse};
ghost use Rattle.c_stack.specs.Values.{Fits};
ghost use Rattle.c_actions.specs.FileActions.{after_add_external, after_bound, after_const_globals, after_definition, after_extern, after_file, after_function, after_function_name, after_globals, after_integer_function, after_mirror, after_no_externals, after_no_storage, after_one_external, after_struct, after_void_function};

use c_stack::{
    FileValue, FunctionName, PartValue, TokenValue, Value, put, take_block, take_declarators,
    take_declared, take_external, take_externals, take_function, take_members, take_name,
    take_parameters, take_place, take_storage, take_type,
};
use c_tree::{CTree, External, FunctionHead, Globals, ResultType, Storage};
use sqlite_items::Items;
use src_text::Place;
use stack_parts::{all_four, all_three, all_two};
use std::alloc::{AllocError, Global};

/// No `extern` and no `static`
pub fn make_no_storage(stack: &mut Vec<Value>) -> Result<bool, AllocError>
    ensures { IfOk result (λ fits. Fits fits (reverse stack.new.items) (after_no_storage (reverse stack.old.items))) }
{
    put(stack, Value::Part(PartValue::Storage(Storage::Unspecified)))?;
    Ok(true)
}

/// `"extern"` before a function.
pub fn make_extern(stack: &mut Vec<Value>) -> Result<bool, AllocError>
    ensures { IfOk result (λ fits. Fits fits (reverse stack.new.items) (after_extern (reverse stack.old.items))) }
{
    let Some(place) = take_place(stack) else {
        return Ok(false);
    };
    put(
        stack,
        Value::Part(PartValue::Storage(Storage::Extern(place))),
    )?;
    Ok(true)
}

/// A name that turns out to be a function's.
pub fn make_function_name(stack: &mut Vec<Value>) -> Result<bool, AllocError>
    ensures { IfOk result (λ fits. Fits fits (reverse stack.new.items) (after_function_name (reverse stack.old.items))) }
{
    let Some(name) = take_name(stack) else {
        return Ok(false);
    };
    put(stack, Value::Token(TokenValue::Declared(name)))?;
    Ok(true)
}

/// `"void" ID` before parameters.
pub fn make_void_function(stack: &mut Vec<Value>) -> Result<bool, AllocError>
    ensures { IfOk result (λ fits. Fits fits (reverse stack.new.items) (after_void_function (reverse stack.old.items))) }
{
    let name = take_declared(stack);
    let place = take_place(stack);
    let Some((name, place)) = all_two(name, place) else {
        return Ok(false);
    };
    put(
        stack,
        Value::Part(PartValue::Function(FunctionName {
            result: ResultType::Void(place),
            name,
        })),
    )?;
    Ok(true)
}

/// `Type ID` before parameters.
pub fn make_integer_function(stack: &mut Vec<Value>) -> Result<bool, AllocError>
    ensures { IfOk result (λ fits. Fits fits (reverse stack.new.items) (after_integer_function (reverse stack.old.items))) }
{
    let name = take_declared(stack);
    let type_name = take_type(stack);
    let Some((name, type_name)) = all_two(name, type_name) else {
        return Ok(false);
    };
    put(
        stack,
        Value::Part(PartValue::Function(FunctionName {
            result: ResultType::Integer(type_name),
            name,
        })),
    )?;
    Ok(true)
}

/// `Function = [ "extern" | "static" ] ( "void" | Type ) ID "(" Params ")" ";"`
pub fn make_function(stack: &mut Vec<Value>) -> Result<bool, AllocError>
    ensures { IfOk result (λ fits. Fits fits (reverse stack.new.items) (after_function (reverse stack.old.items))) }
{
    let parameters = take_parameters(stack);
    let function = take_function(stack);
    let class = take_storage(stack);
    let Some((parameters, function, class)) = all_three(parameters, function, class) else {
        return Ok(false);
    };
    put(
        stack,
        Value::File(FileValue::External(External::Function(FunctionHead {
            storage: class,
            result: function.result,
            name: function.name,
            parameters,
        }))),
    )?;
    Ok(true)
}

/// `Function = [ "extern" | "static" ] ( "void" | Type ) ID "(" Params ")" Block`
pub fn make_definition(stack: &mut Vec<Value>) -> Result<bool, AllocError>
    ensures { IfOk result (λ fits. Fits fits (reverse stack.new.items) (after_definition (reverse stack.old.items))) }
{
    let body = take_block(stack);
    let parameters = take_parameters(stack);
    let function = take_function(stack);
    let class = take_storage(stack);
    let Some((body, parameters, function, class)) = all_four(body, parameters, function, class)
    else {
        return Ok(false);
    };
    put(
        stack,
        Value::File(FileValue::External(External::Definition(
            FunctionHead {
                storage: class,
                result: function.result,
                name: function.name,
                parameters,
            },
            body,
        ))),
    )?;
    Ok(true)
}

/// `Globals = [ "static" ] Type Decl { "," Decl } ";"`
pub fn make_globals(stack: &mut Vec<Value>) -> Result<bool, AllocError>
    ensures { IfOk result (λ fits. Fits fits (reverse stack.new.items) (after_globals (reverse stack.old.items))) }
{
    let declarators = take_declarators(stack);
    let type_name = take_type(stack);
    let class = take_storage(stack);
    let Some((declarators, type_name, class)) = all_three(declarators, type_name, class) else {
        return Ok(false);
    };
    put(
        stack,
        Value::File(FileValue::External(External::Objects(Globals {
            storage: class,
            constant: None,
            type_name,
            declarators,
        }))),
    )?;
    Ok(true)
}

/// `Globals = [ "static" ] "const" Type Decl { "," Decl } ";"`
pub fn make_const_globals(stack: &mut Vec<Value>) -> Result<bool, AllocError>
    ensures { IfOk result (λ fits. Fits fits (reverse stack.new.items) (after_const_globals (reverse stack.old.items))) }
{
    let declarators = take_declarators(stack);
    let type_name = take_type(stack);
    let place = take_place(stack);
    let class = take_storage(stack);
    let Some((declarators, type_name, place, class)) = all_four(
        declarators,
        type_name,
        place,
        class,
    ) else {
        return Ok(false);
    };
    put(
        stack,
        Value::File(FileValue::External(External::Objects(Globals {
            storage: class,
            constant: Some(place),
            type_name,
            declarators,
        }))),
    )?;
    Ok(true)
}

/// `Struct = "struct" ID "{" Member { Member } "}" ";"`
pub fn make_struct(stack: &mut Vec<Value>) -> Result<bool, AllocError>
    ensures { IfOk result (λ fits. Fits fits (reverse stack.new.items) (after_struct (reverse stack.old.items))) }
{
    let members = take_members(stack);
    let tag = take_declared(stack);
    let place = take_place(stack);
    let Some((members, tag, place)) = all_three(members, tag, place) else {
        return Ok(false);
    };
    put(
        stack,
        Value::File(FileValue::External(External::Struct(place, tag, members))),
    )?;
    Ok(true)
}

/// `Mirror = "extern" "struct" ID ID ";"`
pub fn make_mirror(stack: &mut Vec<Value>) -> Result<bool, AllocError>
    ensures { IfOk result (λ fits. Fits fits (reverse stack.new.items) (after_mirror (reverse stack.old.items))) }
{
    let name = take_declared(stack);
    let tag = take_name(stack);
    let place = take_place(stack);
    let Some((name, tag, place)) = all_three(name, tag, place) else {
        return Ok(false);
    };
    put(
        stack,
        Value::File(FileValue::External(External::Mirror(place, tag, name))),
    )?;
    Ok(true)
}

/// `BoundDecl = "extern" "const" Type ID ";"`
pub fn make_bound(stack: &mut Vec<Value>) -> Result<bool, AllocError>
    ensures { IfOk result (λ fits. Fits fits (reverse stack.new.items) (after_bound (reverse stack.old.items))) }
{
    let name = take_declared(stack);
    let type_name = take_type(stack);
    let place = take_place(stack);
    let Some((name, type_name, place)) = all_three(name, type_name, place) else {
        return Ok(false);
    };
    put(
        stack,
        Value::File(FileValue::External(External::Bound(place, type_name, name))),
    )?;
    Ok(true)
}

/// An empty file.
pub fn make_no_externals(alloc: Global, stack: &mut Vec<Value>) -> Result<bool, AllocError>
    ensures { IfOk result (λ fits. Fits fits (reverse stack.new.items) (after_no_externals (reverse stack.old.items))) }
{
    put(stack, Value::File(FileValue::Externals(Items::new(alloc))))?;
    Ok(true)
}

/// The first of several external declarations.
pub fn make_one_external(alloc: Global, stack: &mut Vec<Value>) -> Result<bool, AllocError>
    ensures { IfOk result (λ fits. Fits fits (reverse stack.new.items) (after_one_external (reverse stack.old.items))) }
{
    let Some(part) = take_external(stack) else {
        return Ok(false);
    };
    put(
        stack,
        Value::File(FileValue::Externals(Items::from_vec(vec![in alloc; part]?))),
    )?;
    Ok(true)
}

/// One more external declaration.
pub fn make_add_external(stack: &mut Vec<Value>) -> Result<bool, AllocError>
    ensures { IfOk result (λ fits. Fits fits (reverse stack.new.items) (after_add_external (reverse stack.old.items))) }
{
    let part = take_external(stack);
    let externals = take_externals(stack);
    let Some((part, mut externals)) = all_two(part, externals) else {
        return Ok(false);
    };
    externals.push(part)?;
    put(stack, Value::File(FileValue::Externals(externals)))?;
    Ok(true)
}

/// `File = { External }`
pub fn make_file(stack: &mut Vec<Value>, end: Place) -> Result<bool, AllocError>
    ensures { IfOk result (λ fits. Fits fits (reverse stack.new.items) (after_file end (reverse stack.old.items))) }
{
    let Some(externals) = take_externals(stack) else {
        return Ok(false);
    };
    put(
        stack,
        Value::File(FileValue::Tree(CTree { externals, end })),
    )?;
    Ok(true)
}
