//! Functions with a body (C99 6.9.1).

ghost use Rattle.std.specs.Prelude.{◌≡◌, ◌<◌, [], length, drop, slice_get, slice_set, IfOk, OnOk, None, Some};
ghost use Rattle.std.specs.Option.{option_copied};
ghost use Rattle.c_statements.specs.Moves.{known_of, Goes};
ghost use Rattle.c_functions.specs.Definitions.{param_known, param_offences, param_known_as, param_offences_as, params_known, params_offences, around_of as around_in, function_offences, function_known, function_typed, has_body as has_body_in, body_offences, with_params as with_params_of, function_props, definition_offences, definition_known, definition_made};

use crate::declarations::head;
use crate::heads::{is_known, parameter_place, result_of};
use crate::table::function_number;
use c_names::scope::Scopes;
use c_properties::properties;
use c_statements::walk::{Around, Typer};
use c_tree::{Block, FunctionHead, Identifier, Parameter};
use c_words::{Site, named, number};
use joint_ir::{Function, FunctionList, IntType, PropKind, PropList, SNode, TStmt, TStmtList};
use src_text::{Kind, Place};
use std::alloc::AllocError;

/// The functions of a file, with the bodies so far, and the properties so far.
#[derive(Drop)]
pub struct Made {
    pub functions: FunctionList,
    pub props: PropList,
}

fn around_of(head: &FunctionHead) -> Around
    ensures { result ≡ around_in head.now }
{
    Around {
        result: result_of(head.result),
        in_loop: false,
        may_break: false,
    }
}

fn no_name(typer: &mut Typer, place: Place)
    ensures { Goes typer.old typer.new (param_offences_as place None (known_of typer.old)) (known_of typer.old) }
{
    typer.notes.offence(place, Kind::CFunctionType);
}

fn named_param(
    typer: &mut Typer,
    ty: IntType,
    constant: bool,
    name: &Identifier,
) -> Result<(), AllocError>
    ensures { OnOk result (Goes typer.old typer.new (param_offences_as name.now.place (Some name.now) (known_of typer.old)) (param_known_as ty constant (Some name.now) (known_of typer.old))) }
{
    typer.begin(name)?;
    typer.finish(ty, 0, constant, name)?;
    Ok(())
}

fn param(typer: &mut Typer, p: &Parameter) -> Result<(), AllocError>
    ensures { OnOk result (Goes typer.old typer.new (param_offences (known_of typer.old) p.now) (param_known p.now (known_of typer.old))) }
{
    match &p.name {
        None => {
            no_name(typer, parameter_place(p));
            Ok(())
        }
        Some(name) => {
            let ty = named(p.type_name.integer);
            let constant = p.constant.is_some();
            named_param(typer, ty, constant, name)?;
            Ok(())
        }
    }
}

fn params(typer: &mut Typer, ps: &[Parameter]) -> Result<(), AllocError>
    ensures { OnOk result (Goes typer.old typer.new (params_offences (known_of typer.old) ps.now) (params_known ps.now (known_of typer.old))) }
{
    for p in ps {
        param(typer, p)?;
    }
    Ok(())
}

/// A function's body, in a scope that it shares with the parameters.
fn walk(typer: &mut Typer, head: &FunctionHead, body: &Block) -> Result<TStmtList, AllocError>
    requires { 0 < length typer.old.scopes }
    ensures typed { IfOk result (λ ts. ts ≡ function_typed head.now body.now (known_of typer.old)) }
    ensures goes { OnOk result (Goes typer.old typer.new (function_offences head.now body.now (known_of typer.old)) (function_known head.now body.now (known_of typer.old))) }
{
    typer.enter()?;
    typer.own(PropKind::Recursion, head.name.place)?;
    params(typer, head.parameters.as_slice())?;
    let ts = typer.items(around_of(head), body.items.as_slice())?;
    typer.leave();
    Ok(ts)
}

fn has_body(function: Option<&Function>) -> bool
    ensures { result ≡ has_body_in (option_copied function.entry) }
{
    match function {
        None => false,
        Some(f) => f.body.is_some(),
    }
}

fn note_body(
    typer: &mut Typer,
    names: &Scopes,
    functions: &FunctionList,
    head: &FunctionHead,
    place: Place,
)
    ensures { Goes typer.old typer.new (body_offences names.now functions.now head.now place) (known_of typer.old) }
{
    let number = function_number(names, &head.name.name);
    let stood = has_body(functions.get(number as usize));
    if stood || is_known(&head.name.name) {
        typer.notes.offence(place, Kind::CRedeclared);
    }
}

/// The properties that were noted since there were so many.
fn since(sites: &[Site], before: usize) -> &[Site]
    ensures { result.now ≡ drop before sites.now }
{
    if before <= sites.len() {
        &sites[before..]
    } else {
        &[]
    }
}

fn with_params(
    head: &FunctionHead,
    first: u32,
    place: Place,
    items: TStmtList,
) -> Result<Function, AllocError>
    ensures { IfOk result (λ f. f ≡ with_params_of head.now first place items) }
{
    Ok(Function {
        name: head.name.name.clone()?,
        result: result_of(head.result),
        first,
        params: number(head.parameters.len()),
        body: Some(TStmt {
            place,
            node: SNode::Block(items),
        }),
    })
}

fn put(functions: &mut FunctionList, at: usize, function: Function)
    ensures { functions.new ≡ slice_set functions.old at function }
{
    if at < functions.len() {
        functions.set(at, function);
    }
}

fn function_properties(
    typer: &Typer,
    head: &FunctionHead,
    before: usize,
) -> Result<PropList, AllocError>
    ensures { IfOk result (λ ps. ps ≡ function_props head.now before typer.now.notes.sites) }
{
    let sites = since(typer.notes.sites.as_slice(), before);
    let props = properties(typer.alloc, &head.name.name, sites)?;
    Ok(props)
}

/// A function with its body, where the names of the file's functions are given. Want of memory is the only error.
pub fn definition(
    typer: &mut Typer,
    names: &Scopes,
    made: &mut Made,
    declared: &FunctionHead,
    body: &Block,
) -> Result<(), AllocError>
    requires { 0 < length typer.old.scopes }
    ensures goes { OnOk result (Goes typer.old typer.new (definition_offences names.now made.old.functions declared.now body.now (known_of typer.old)) (definition_known names.now declared.now body.now (known_of typer.old))) }
    ensures made { OnOk result (made.new ≡ definition_made names.now declared.now body.now (known_of typer.old) made.old) }
{
    let first = number(typer.locals.len());
    let before = typer.notes.sites.len();
    head(typer, names, declared)?;
    note_body(typer, names, &made.functions, declared, body.place);
    let items = walk(typer, declared, body)?;
    let props = function_properties(typer, declared, before)?;
    let function = with_params(declared, first, body.place, items)?;
    let at = function_number(names, &declared.name.name);
    put(&mut made.functions, at as usize, function);
    made.props.append(props)?;
    Ok(())
}
