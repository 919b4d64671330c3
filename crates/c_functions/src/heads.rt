//! What the first part of a function says: its result, its parameters, its name.

ghost use Rattle.std.specs.Prelude.{◌≡◌, IfOk, OnOk, nat_eq};
ghost use Rattle.c_tree.specs.Starts.{parameter_start, head_start, result_start};
ghost use Rattle.c_words.specs.Types.{same_type};
ghost use Rattle.c_functions.specs.Heads.{result_of as result_in, parameter_types as parameter_types_of, same_result as same_result_of, same_types as same_types_of, is_free as is_free_of, is_known as is_known_name, is_main as is_main_name, is_int_or_void as is_int_or_void_of, has_known_types as has_known_types_of, has_main_types as has_main_types_of};

use c_tree::{FunctionHead, Parameter, ResultType, Storage};
use c_words::{INT, named};
use joint_ir::IntType;
use sqlite_items::Items;
use src_text::{Name, Place};
use std::alloc::{AllocError, Global};

/// The place of a parameter's first token.
pub fn parameter_place(p: &Parameter) -> Place
    ensures { result ≡ parameter_start p.now }
{
    match p.constant {
        Some(place) => place,
        None => p.type_name.place,
    }
}

fn result_place(of: ResultType) -> Place
    ensures { result ≡ result_start of }
{
    match of {
        ResultType::Void(place) => place,
        ResultType::Integer(ty) => ty.place,
    }
}

/// The place of a function's first token.
pub fn head_place(head: &FunctionHead) -> Place
    ensures { result ≡ head_start head.now }
{
    match head.storage {
        Storage::Unspecified => result_place(head.result),
        Storage::Extern(place) | Storage::Static(place) => place,
    }
}

/// What a function gives; None for `void`.
pub fn result_of(of: ResultType) -> Option<IntType>
    ensures { result ≡ result_in of }
{
    match of {
        ResultType::Void(_) => None,
        ResultType::Integer(ty) => Some(named(ty.integer)),
    }
}

/// The types of a function's parameters.
pub fn parameter_types(alloc: Global, head: &FunctionHead) -> Result<Items<IntType>, AllocError>
    ensures { IfOk result (λ ts. ts ≡ parameter_types_of head.now.parameters) }
{
    let mut types = Items::new(alloc);
    for p in head.parameters.as_slice() {
        types.push(named(p.type_name.integer))?;
    }
    Ok(types)
}

/// Whether two results are of one type.
pub fn same_result(a: Option<IntType>, b: Option<IntType>) -> bool
    ensures { result ≡ same_result_of a b }
{
    match (a, b) {
        (None, None) => true,
        (Some(a), Some(b)) => a == b,
        _ => false,
    }
}

/// Whether two lists of types are the same.
pub fn same_types(a: &[IntType], b: &[IntType]) -> bool
    ensures { result ≡ same_types_of a.now b.now }
{
    let mut i = 0;
    while i < a.len() && i < b.len() {
        if a[i] != b[i] {
            return false;
        }
        i += 1;
    }
    a.len() == b.len()
}

/// Whether a function without a body is one that gives any value of its result's type.
pub fn is_free(head: &FunctionHead) -> bool
    ensures { result ≡ is_free_of head.now }
{
    head.name.name.text().as_bytes().starts_with(b"nondet_")
        && head.parameters.len() == 0
        && result_of(head.result).is_some()
}

/// Whether a name is `set_inputs` or `next_timeframe`.
pub fn is_known(name: &Name) -> bool
    ensures { result ≡ is_known_name name.now }
{
    name.text() == "set_inputs" || name.text() == "next_timeframe"
}

/// Whether a name is `main`.
pub fn is_main(name: &Name) -> bool
    ensures { result ≡ is_main_name name.now }
{
    name.text() == "main"
}

fn is_int_or_void(result_type: Option<IntType>) -> bool
    ensures { result ≡ is_int_or_void_of result_type }
{
    match result_type {
        None => true,
        Some(ty) => ty == INT,
    }
}

/// Whether a function has the types of `set_inputs` and `next_timeframe`.
pub fn has_known_types(head: &FunctionHead) -> bool
    ensures { result ≡ has_known_types_of head.now }
{
    result_of(head.result).is_none() && head.parameters.len() == 0
}

/// Whether a function has the types of a `main`.
pub fn has_main_types(head: &FunctionHead) -> bool
    ensures { result ≡ has_main_types_of head.now }
{
    is_int_or_void(result_of(head.result)) && head.parameters.len() == 0
}
