//! Declarations of functions (C99 6.7.5.3).

ghost use Rattle.std.specs.Prelude.{◌≡◌, ◌<◌, [], length, OnOk, IfOk, Some};
ghost use Rattle.std.specs.Option.{option_copied};
ghost use Rattle.c_statements.specs.Known.{Known, with_scopes};
ghost use Rattle.c_statements.specs.Moves.{known_of, Goes};
ghost use Rattle.c_names.specs.Scope.{declared_in};
ghost use Rattle.c_functions.specs.Declarations.{differs as differs_from, before_offences, known_offences, main_offences, head_offences, head_known, name_known, name_offences, names_known, names_offences, declaration_offences, declaration_known};

use crate::heads::{
    has_known_types, has_main_types, head_place, is_known, is_main, parameter_types, result_of,
    same_result, same_types,
};
use crate::table::function_number;
use c_names::scope::{Entry, Scopes};
use c_statements::calls::Signature;
use c_statements::walk::Typer;
use c_tree::{FunctionHead, Parameter};
use src_text::Kind;
use std::alloc::{AllocError, Global};

/// Whether a function has other types than a signature.
fn differs(
    alloc: Global,
    signature: Option<&Signature>,
    head: &FunctionHead,
) -> Result<bool, AllocError>
    ensures { IfOk result (λ yes. yes ≡ differs_from (option_copied signature.entry) head.now) }
{
    match signature {
        None => Ok(false),
        Some(s) => {
            let types = parameter_types(alloc, head)?;
            let same = same_result(s.result, result_of(head.result))
                && same_types(s.params.as_slice(), types.as_slice());
            Ok(!same)
        }
    }
}

fn note_types(typer: &mut Typer, head: &FunctionHead, n: u32) -> Result<(), AllocError>
    ensures { OnOk result (Goes typer.old typer.new (before_offences typer.old.signatures head.now (Some (Entry.Function n))) (known_of typer.old)) }
{
    if differs(typer.alloc, typer.signatures.get(n as usize), head)? {
        typer.notes.offence(head_place(head), Kind::CFunctionType);
    }
    Ok(())
}

fn note_before(typer: &mut Typer, head: &FunctionHead) -> Result<(), AllocError>
    ensures { OnOk result (Goes typer.old typer.new (before_offences typer.old.signatures head.now (declared_in typer.old.scopes head.now.name.name)) (known_of typer.old)) }
{
    match typer.scopes.find_inner(&head.name.name) {
        None => Ok(()),
        Some(Entry::Function(n)) => {
            note_types(typer, head, n)?;
            Ok(())
        }
        Some(_) => {
            typer.notes.offence(head.name.place, Kind::CRedeclared);
            Ok(())
        }
    }
}

fn note_known(typer: &mut Typer, head: &FunctionHead)
    ensures { Goes typer.old typer.new (known_offences head.now) (known_of typer.old) }
{
    if is_known(&head.name.name) && !has_known_types(head) {
        typer.notes.offence(head_place(head), Kind::CFunctionType);
    }
}

fn note_main(typer: &mut Typer, head: &FunctionHead)
    ensures { Goes typer.old typer.new (main_offences head.now) (known_of typer.old) }
{
    if is_main(&head.name.name) && !has_main_types(head) {
        typer.notes.offence(head.name.place, Kind::CMain);
    }
}

/// Gives a function's name its meaning.
fn declare(typer: &mut Typer, names: &Scopes, head: &FunctionHead) -> Result<(), AllocError>
    ensures { OnOk result (Goes typer.old typer.new [] (head_known names.now head.now (known_of typer.old))) }
{
    let number = function_number(names, &head.name.name);
    typer
        .scopes
        .declare(&head.name.name, Entry::Function(number))?;
    Ok(())
}

/// The first part of a function, which a declaration and a definition have in common.
pub fn head(typer: &mut Typer, names: &Scopes, head: &FunctionHead) -> Result<(), AllocError>
    ensures { OnOk result (Goes typer.old typer.new (head_offences (known_of typer.old) head.now) (head_known names.now head.now (known_of typer.old))) }
{
    note_before(typer, head)?;
    note_known(typer, head);
    note_main(typer, head);
    declare(typer, names, head)?;
    Ok(())
}

fn parameter_name(typer: &mut Typer, p: &Parameter) -> Result<(), AllocError>
    ensures { OnOk result (Goes typer.old typer.new (name_offences (known_of typer.old) p.now.name) (name_known p.now.name (known_of typer.old))) }
{
    match &p.name {
        None => Ok(()),
        Some(name) => {
            typer.begin(name)?;
            Ok(())
        }
    }
}

fn parameter_names(typer: &mut Typer, ps: &[Parameter]) -> Result<(), AllocError>
    ensures { OnOk result (Goes typer.old typer.new (names_offences (known_of typer.old) ps.now) (names_known ps.now (known_of typer.old))) }
{
    for p in ps {
        parameter_name(typer, p)?;
    }
    Ok(())
}

/// A declaration of a function without its body, where the names of the file's functions are given. Want of memory is the
/// only error.
pub fn declaration(
    typer: &mut Typer,
    names: &Scopes,
    declared: &FunctionHead,
) -> Result<(), AllocError>
    requires { 0 < length typer.old.scopes }
    ensures { OnOk result (Goes typer.old typer.new (declaration_offences names.now declared.now (known_of typer.old)) (declaration_known names.now declared.now (known_of typer.old))) }
{
    head(typer, names, declared)?;
    typer.enter()?;
    parameter_names(typer, declared.parameters.as_slice())?;
    typer.leave();
    Ok(())
}
