//! Where declarations begin (C99 6.7 and 6.9).

ghost use Rattle.std.specs.Prelude.{◌≡◌};
ghost use Rattle.c_tree.specs.Starts.{declarator_start as declarator_place, external_start as external_place, globals_start as globals_place, head_start as head_place, initializer_start as initializer_place, local_start as local_place, member_declarator_start as member_declarator_place, member_start as member_place, parameter_start as parameter_place, result_start as result_place, storage_start as storage_place, tree_start as tree_place};

use crate::expressions::{call_start, expression_start};
use c_tree::{
    CTree, Declarator, External, FunctionHead, Globals, Initializer, Local, Member,
    MemberDeclarator, Parameter, ResultType, Storage,
};
use src_text::Place;

/// The place of the first token of a right side.
pub fn initializer_start(initializer: &Initializer) -> Place
    ensures { result ≡ initializer_place initializer.now }
{
    match initializer {
        Initializer::Value(value) => expression_start(value),
        Initializer::Called(call) => call_start(call),
    }
}

/// The place of a declared name.
pub fn declarator_start(declarator: &Declarator) -> Place
    ensures { result ≡ declarator_place declarator.now }
{
    match declarator {
        Declarator::Plain(name) => name.place,
        Declarator::Initialized(name, _) => name.place,
        Declarator::Array(name, _) => name.place,
        Declarator::InitializedArray(name, _, _) => name.place,
    }
}

/// The place of `const`, or else of the type's first word.
pub fn local_start(local: &Local) -> Place
    ensures { result ≡ local_place local.now }
{
    match local.constant {
        Some(place) => place,
        None => local.type_name.place,
    }
}

/// The place of the name of a member.
pub fn member_declarator_start(declarator: &MemberDeclarator) -> Place
    ensures { result ≡ member_declarator_place declarator.now }
{
    match declarator {
        MemberDeclarator::Plain(name) => name.place,
        MemberDeclarator::Array(name, _) => name.place,
    }
}

/// The place of the first token of members that are declared together.
pub fn member_start(member: &Member) -> Place
    ensures { result ≡ member_place member.now }
{
    match member {
        Member::Integers(type_name, _) => type_name.place,
        Member::Structs(place, _, _) => *place,
    }
}

/// The place of a parameter's `const`, or else of its type's first word.
pub fn parameter_start(parameter: &Parameter) -> Place
    ensures { result ≡ parameter_place parameter.now }
{
    match parameter.constant {
        Some(place) => place,
        None => parameter.type_name.place,
    }
}

/// The place of `void`, or of the first word of a function's type.
pub fn result_start(result_type: ResultType) -> Place
    ensures { result ≡ result_place result_type }
{
    match result_type {
        ResultType::Void(place) => place,
        ResultType::Integer(type_name) => type_name.place,
    }
}

/// The place of a storage class, or else that of what follows it.
fn storage_start(storage: Storage, next: Place) -> Place
    ensures { result ≡ storage_place storage next }
{
    match storage {
        Storage::Unspecified => next,
        Storage::Extern(place) => place,
        Storage::Static(place) => place,
    }
}

/// The place of a function's first token.
pub fn head_start(head: &FunctionHead) -> Place
    ensures { result ≡ head_place head.now }
{
    storage_start(head.storage, result_start(head.result))
}

/// The place of the first token of objects at file scope.
pub fn globals_start(globals: &Globals) -> Place
    ensures { result ≡ globals_place globals.now }
{
    let after_storage = match globals.constant {
        Some(place) => place,
        None => globals.type_name.place,
    };
    storage_start(globals.storage, after_storage)
}

/// The place of the first token of an external declaration.
pub fn external_start(external: &External) -> Place
    ensures { result ≡ external_place external.now }
{
    match external {
        External::Struct(place, _, _) => *place,
        External::Mirror(place, _, _) => *place,
        External::Bound(place, _, _) => *place,
        External::Function(head) => head_start(head),
        External::Definition(head, _) => head_start(head),
        External::Objects(globals) => globals_start(globals),
    }
}

/// The place of a file's first token, or its end where it has none.
pub fn tree_start(tree: &CTree) -> Place
    ensures { result ≡ tree_place tree.now }
{
    match tree.externals.as_slice() {
        [] => tree.end,
        [first, ..] => external_start(first),
    }
}
