//! The functions that a file names, each by its first declaration.

ghost use Rattle.std.specs.Prelude.{◌≡◌, IfOk, OnOk};
ghost use Rattle.std.specs.List.{fold};
ghost use Rattle.c_functions.specs.Tables.{with_body as with_body_in, bodies_of, signature_of, without_body as without_body_of, added, entered_head, entered, no_functions, table_of, number_in as number_at, function_number as function_number_of};

use crate::heads::{is_free, parameter_types, result_of};
use c_names::scope::{Entry, Scopes};
use c_statements::calls::Signature;
use c_tree::{External, FunctionHead};
use c_words::number;
use joint_ir::{Function, FunctionList};
use sqlite_items::Items;
use src_text::Name;
use std::alloc::{AllocError, Global};

/// The functions of a file, by their numbers.
#[derive(Drop)]
pub struct Table {
    /// One scope, in which the name of each function means its number.
    pub names: Scopes,
    pub signatures: Items<Signature>,
    /// Without their bodies.
    pub functions: FunctionList,
}

fn with_body(names: &mut Scopes, x: &External) -> Result<(), AllocError>
    ensures { OnOk result (names.new ≡ with_body_in names.old x.now) }
{
    match x {
        External::Definition(head, _) => {
            names.declare(&head.name.name, Entry::Function(0))?;
            Ok(())
        }
        _ => Ok(()),
    }
}

/// The names of the functions that have a body.
fn bodies(alloc: Global, externals: &[External]) -> Result<Scopes, AllocError>
    ensures { IfOk result (λ names. names ≡ bodies_of externals.now) }
{
    let mut names = Scopes::new(alloc);
    for x in externals {
        with_body(&mut names, x)?;
    }
    Ok(names)
}

fn signature(alloc: Global, bodies: &Scopes, head: &FunctionHead) -> Result<Signature, AllocError>
    ensures { IfOk result (λ s. s ≡ signature_of bodies.now head.now) }
{
    let params = parameter_types(alloc, head)?;
    Ok(Signature {
        result: result_of(head.result),
        params,
        callable: bodies.find(&head.name.name).is_some() || is_free(head),
    })
}

fn without_body(head: &FunctionHead) -> Result<Function, AllocError>
    ensures { IfOk result (λ f. f ≡ without_body_of head.now) }
{
    Ok(Function {
        name: head.name.name.clone()?,
        result: result_of(head.result),
        first: 0,
        params: 0,
        body: None,
    })
}

fn add(
    alloc: Global,
    bodies: &Scopes,
    table: &mut Table,
    head: &FunctionHead,
) -> Result<(), AllocError>
    ensures { OnOk result (table.new ≡ added bodies.now table.old head.now) }
{
    let at = number(table.functions.len());
    let signature = signature(alloc, bodies, head)?;
    let function = without_body(head)?;
    table.names.declare(&head.name.name, Entry::Function(at))?;
    table.signatures.push(signature)?;
    table.functions.push(function)?;
    Ok(())
}

fn enter_head(
    alloc: Global,
    bodies: &Scopes,
    table: &mut Table,
    head: &FunctionHead,
) -> Result<(), AllocError>
    ensures { OnOk result (table.new ≡ entered_head bodies.now table.old head.now) }
{
    match table.names.find(&head.name.name) {
        None => {
            add(alloc, bodies, table, head)?;
            Ok(())
        }
        Some(_) => Ok(()),
    }
}

fn enter(alloc: Global, bodies: &Scopes, table: &mut Table, x: &External) -> Result<(), AllocError>
    ensures { OnOk result (table.new ≡ entered bodies.now table.old x.now) }
{
    match x {
        External::Function(head) => {
            enter_head(alloc, bodies, table, head)?;
            Ok(())
        }
        External::Definition(head, _) => {
            enter_head(alloc, bodies, table, head)?;
            Ok(())
        }
        _ => Ok(()),
    }
}

/// The functions of a file, where the names of those with a body are given.
fn entered_all(alloc: Global, bodies: &Scopes, externals: &[External]) -> Result<Table, AllocError>
    ensures { IfOk result (λ t. t ≡ fold (entered bodies.now) no_functions externals.now) }
{
    let mut table = Table {
        names: Scopes::new(alloc),
        signatures: Items::new(alloc),
        functions: Items::new(alloc),
    };
    for x in externals {
        enter(alloc, bodies, &mut table, x)?;
    }
    Ok(table)
}

/// The functions of a file. Want of memory is the only error.
pub fn tabulate(alloc: Global, externals: &[External]) -> Result<Table, AllocError>
    ensures { IfOk result (λ t. t ≡ table_of externals.now) }
{
    let bodies = bodies(alloc, externals)?;
    let table = entered_all(alloc, &bodies, externals)?;
    Ok(table)
}

fn number_in(entry: Option<Entry>) -> u32
    ensures { result ≡ number_at entry }
{
    match entry {
        Some(Entry::Function(n)) => n,
        _ => 0,
    }
}

/// The number of a function, by its name.
pub fn function_number(names: &Scopes, name: &Name) -> u32
    ensures { result ≡ function_number_of names.now name.now }
{
    number_in(names.find(name))
}
