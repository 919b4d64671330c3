//! The objects of file scope (C99 6.9.2): their lengths, their first values, and what is wrong with them.
//!
//! Knows nothing of functions but how they are called, nor of structs and the mirror.
#![tactic(auto)]

mod values;

ghost use Rattle.std.specs.Prelude.{◌≡◌, [], ◌∷◌, ◌++◌, length, OnOk};
ghost use Rattle.joint_value.specs.Answers.{HasWidth};
ghost use Rattle.c_statements.specs.Moves.{known_of, Goes};
ghost use Rattle.c_objects.specs.Objects.{with_global, global_var, globals_offences, globals_known, globals_vars};
ghost use Rattle.c_objects.specs.Steps.{IsObject, AreObjects};

use crate::values::{elements, initial_value, single};
use c_names::scope::{Entry, Target};
use c_statements::arrays::{array_length, note_excess, read_length};
use c_statements::walk::Typer;
use c_tree::{Declarator, Expression, Globals, Identifier, Initializer};
use c_words::{named, number};
use joint_ir::{IntType, Slot, ValueList, Var, VarList};
use sqlite_items::Items;
use std::alloc::AllocError;

/// What the objects of one declaration have in common.
#[derive(Clone, Copy, Debug, PartialEq, Eq)]
struct Common {
    ty: IntType,
    constant: bool,
}

/// An object whose initializer was seen.
fn finish(
    typer: &mut Typer,
    globals: &mut VarList,
    common: Common,
    count: u32,
    firsts: ValueList,
    name: &Identifier,
) -> Result<(), AllocError>
    ensures goes { OnOk result (Goes typer.old typer.new [] (with_global (length globals.old) common.ty common.constant count name.now (known_of typer.old))) }
    ensures globals { OnOk result (globals.new ≡ globals.old ++ global_var common.ty common.constant count firsts name.now ∷ []) }
{
    let target = Target {
        slot: Slot::Global(number(globals.len())),
        ty: common.ty,
        length: count,
        constant: common.constant,
    };
    typer.scopes.declare(&name.name, Entry::Object(target))?;
    globals.push(Var {
        name: name.name.clone()?,
        ty: common.ty,
        length: count,
        firsts,
        constant: common.constant,
    })?;
    Ok(())
}

fn plain(
    typer: &mut Typer,
    globals: &mut VarList,
    common: Common,
    name: &Identifier,
) -> Result<(), AllocError>
    ensures { OnOk result (IsObject typer.old typer.new globals.old globals.new common.ty common.constant (Declarator.Plain name.now)) }
{
    typer.begin(name)?;
    finish(typer, globals, common, 0, Items::new(typer.alloc), name)?;
    Ok(())
}

fn initialized(
    typer: &mut Typer,
    globals: &mut VarList,
    common: Common,
    name: &Identifier,
    init: &Initializer,
) -> Result<(), AllocError>
    requires { HasWidth common.ty }
    ensures { OnOk result (IsObject typer.old typer.new globals.old globals.new common.ty common.constant (Declarator.Initialized name.now init.now)) }
{
    typer.begin(name)?;
    let first = initial_value(typer, common.ty, init)?;
    let firsts = single(typer.alloc, first)?;
    finish(typer, globals, common, 0, firsts, name)?;
    Ok(())
}

fn array(
    typer: &mut Typer,
    globals: &mut VarList,
    common: Common,
    name: &Identifier,
    length: &Expression,
) -> Result<(), AllocError>
    ensures { OnOk result (IsObject typer.old typer.new globals.old globals.new common.ty common.constant (Declarator.Array name.now length.now)) }
{
    let c = read_length(typer.alloc, &typer.scopes, &mut typer.notes, length)?;
    typer.begin(name)?;
    let firsts = Items::new(typer.alloc);
    finish(typer, globals, common, array_length(c), firsts, name)?;
    Ok(())
}

fn initialized_array(
    typer: &mut Typer,
    globals: &mut VarList,
    common: Common,
    name: &Identifier,
    length: &Expression,
    es: &[Expression],
) -> Result<(), AllocError>
    requires { HasWidth common.ty }
    ensures { OnOk result (IsObject typer.old typer.new globals.old globals.new common.ty common.constant (Declarator.InitializedArray name.now length.now es.now)) }
{
    let c = read_length(typer.alloc, &typer.scopes, &mut typer.notes, length)?;
    note_excess(&mut typer.notes, c, es);
    typer.begin(name)?;
    let firsts = elements(typer.alloc, &typer.scopes, &mut typer.notes, common.ty, es)?;
    finish(typer, globals, common, array_length(c), firsts, name)?;
    Ok(())
}

fn object(
    typer: &mut Typer,
    globals: &mut VarList,
    common: Common,
    d: &Declarator,
) -> Result<(), AllocError>
    requires { HasWidth common.ty }
    ensures { OnOk result (IsObject typer.old typer.new globals.old globals.new common.ty common.constant d.now) }
{
    match d {
        Declarator::Plain(name) => {
            plain(typer, globals, common, name)?;
            Ok(())
        }
        Declarator::Initialized(name, init) => {
            initialized(typer, globals, common, name, init)?;
            Ok(())
        }
        Declarator::Array(name, n) => {
            array(typer, globals, common, name, n)?;
            Ok(())
        }
        Declarator::InitializedArray(name, n, es) => {
            initialized_array(typer, globals, common, name, n, es.as_slice())?;
            Ok(())
        }
    }
}

fn declarators(
    typer: &mut Typer,
    globals: &mut VarList,
    common: Common,
    ds: &[Declarator],
) -> Result<(), AllocError>
    requires { HasWidth common.ty }
    ensures { OnOk result (AreObjects typer.old typer.new globals.old globals.new common.ty common.constant ds.now) }
{
    for d in ds {
        object(typer, globals, common, d)?;
    }
    Ok(())
}

/// The objects of a declaration at file scope, which stand behind the earlier ones of the file. Want of memory is the only
/// error.
pub fn objects(
    typer: &mut Typer,
    globals: &mut VarList,
    declared: &Globals,
) -> Result<(), AllocError>
    ensures goes { OnOk result (Goes typer.old typer.new (globals_offences (length globals.old) declared.now (known_of typer.old)) (globals_known (length globals.old) declared.now (known_of typer.old))) }
    ensures globals { OnOk result (globals.new ≡ globals.old ++ globals_vars declared.now) }
{
    let common = Common {
        ty: named(declared.type_name.integer),
        constant: declared.constant.is_some(),
    };
    declarators(typer, globals, common, declared.declarators.as_slice())?;
    Ok(())
}
