//! The first values of objects (C99 6.7.8).

ghost use Rattle.std.specs.Prelude.{◌≡◌, [], ◌∷◌, ◌++◌, IfOk, OnOk};
ghost use Rattle.c_tree.specs.Starts.{expression_start};
ghost use Rattle.c_statements.specs.Calls.{init_offences};
ghost use Rattle.joint_value.specs.Answers.{HasWidth};
ghost use Rattle.c_statements.specs.Moves.{known_of, Goes};
ghost use Rattle.c_objects.specs.Objects.{value_in as value_of_type, initial_value as initial_value_of, initial_offences};
ghost use Rattle.c_objects.specs.Steps.{IsValue, AreValues};

use c_constants::places::expression_place;
use c_constants::{Constant, constant_in};
use c_names::scope::Scopes;
use c_statements::calls::initial;
use c_statements::walk::Typer;
use c_tree::{Expression, Initializer};
use c_words::Notes;
use joint_ir::{IntType, ValueList};
use joint_value::arith::converted;
use sqlite_items::Items;
use src_text::Kind;
use std::alloc::{AllocError, Global};

fn value_in(ty: IntType, c: Constant) -> i128
    requires { HasWidth ty }
    ensures { result ≡ value_of_type ty c }
{
    match c {
        Constant::Is(n) => converted(ty, n),
        Constant::Never | Constant::Undefined => 0,
    }
}

/// The value of one initializer. An operator in it has no property.
fn constant(
    alloc: Global,
    scopes: &Scopes,
    notes: &mut Notes,
    ty: IntType,
    e: &Expression,
) -> Result<i128, AllocError>
    requires { HasWidth ty }
    ensures { IfOk result (λ n. IsValue scopes.now notes.old notes.new ty e.now n) }
{
    let c = constant_in(alloc, scopes, notes, expression_place(e), e)?;
    Ok(value_in(ty, c))
}

fn push(values: &mut ValueList, n: i128) -> Result<(), AllocError>
    ensures { OnOk result (values.new ≡ values.old ++ n ∷ []) }
{
    values.push(n)
}

/// One value.
pub fn single(alloc: Global, n: i128) -> Result<ValueList, AllocError>
    ensures { IfOk result (λ ns. ns ≡ n ∷ []) }
{
    let mut values = Items::new(alloc);
    push(&mut values, n)?;
    Ok(values)
}

/// The first elements of an array of a type.
pub fn elements(
    alloc: Global,
    scopes: &Scopes,
    notes: &mut Notes,
    ty: IntType,
    es: &[Expression],
) -> Result<ValueList, AllocError>
    requires { HasWidth ty }
    ensures { IfOk result (λ ns. AreValues scopes.now notes.old notes.new ty es.now ns) }
{
    let mut values = Items::new(alloc);
    for e in es {
        let n = constant(alloc, scopes, notes, ty, e)?;
        push(&mut values, n)?;
    }
    Ok(values)
}

/// A call, which is no constant.
fn note_call(typer: &mut Typer, ty: IntType, init: &Initializer) -> Result<(), AllocError>
    ensures { OnOk result (Goes typer.old typer.new (init_offences typer.old.signatures typer.old.scopes init.now) (known_of typer.old)) }
{
    let mut scratch = Notes {
        first: typer.notes.first,
        sites: Items::new(typer.alloc),
    };
    let signatures = typer.signatures.as_slice();
    let _typed = initial(
        typer.alloc,
        signatures,
        &typer.scopes,
        &mut scratch,
        ty,
        init,
    )?;
    typer.notes.first = scratch.first;
    Ok(())
}

/// The value of an object that is no array.
pub fn initial_value(typer: &mut Typer, ty: IntType, init: &Initializer) -> Result<i128, AllocError>
    requires { HasWidth ty }
    ensures value { IfOk result (λ n. n ≡ initial_value_of ty init.now) }
    ensures goes { OnOk result (Goes typer.old typer.new (initial_offences typer.old.signatures typer.old.scopes init.now) (known_of typer.old)) }
{
    match init {
        Initializer::Value(e) => {
            let n = constant(typer.alloc, &typer.scopes, &mut typer.notes, ty, e)?;
            Ok(n)
        }
        Initializer::Called(call) => {
            note_call(typer, ty, init)?;
            typer.notes.offence(call.name.place, Kind::CConstant);
            Ok(0)
        }
    }
}
