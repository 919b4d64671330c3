//! Arrays: their lengths and their initial elements (C99 6.7.5.2 and 6.7.8).

ghost use Rattle.std.specs.Prelude.{◌≡◌, IfOk};
ghost use Rattle.c_tree.specs.Starts.{expression_start};
ghost use Rattle.c_constants.specs.Constants.{told};
ghost use Rattle.c_statements.specs.Arrays.{is_length as is_length_of, length_in as length_at, array_length as array_length_of, range_offences, excess_offences};
ghost use Rattle.c_statements.specs.Steps.{AreElements, IsLength};

use c_constants::places::expression_place;
use c_constants::{Constant, constant_in};
use c_expressions::expressions::{converted_to, expression};
use c_names::scope::Scopes;
use c_tree::Expression;
use c_words::Notes;
use joint_ir::{IntType, TExprList};
use sqlite_items::Items;
use src_text::{Kind, Place};
use std::alloc::{AllocError, Global};

fn is_length(n: i128) -> bool
    ensures { result ≡ is_length_of n }
{
    1 <= n && n <= 4096
}

fn length_in(n: i128) -> u32
    ensures { result ≡ length_at n }
{
    if 1 <= n && n <= 4096 { n as u32 } else { 1 }
}

/// The length of an array; 1 where it isn't known or isn't one.
pub fn array_length(c: Constant) -> u32
    ensures { result ≡ array_length_of c }
{
    match c {
        Constant::Is(n) => length_in(n),
        Constant::Never | Constant::Undefined => 1,
    }
}

fn note_range(notes: &mut Notes, place: Place, c: Constant)
    ensures { notes.new ≡ told notes.old (range_offences place c) }
{
    match c {
        Constant::Is(n) => {
            if !is_length(n) {
                notes.offence(place, Kind::CLength);
            }
        }
        Constant::Never | Constant::Undefined => {}
    }
}

/// Notes the first element past a known length.
pub fn note_excess(notes: &mut Notes, c: Constant, elements: &[Expression])
    ensures { notes.new ≡ told notes.old (excess_offences c elements.now) }
{
    match c {
        Constant::Is(n) => {
            if is_length(n) {
                let at = length_in(n) as usize;
                if at < elements.len() {
                    notes.offence(expression_place(&elements[at]), Kind::CInitializers);
                }
            }
        }
        Constant::Never | Constant::Undefined => {}
    }
}

/// What the length of an array is.
pub fn read_length(
    alloc: Global,
    scopes: &Scopes,
    notes: &mut Notes,
    e: &Expression,
) -> Result<Constant, AllocError>
    ensures { IfOk result (λ c. IsLength scopes.now notes.old notes.new e.now c) }
{
    let place = expression_place(e);
    let c = constant_in(alloc, scopes, notes, place, e)?;
    note_range(notes, place, c);
    Ok(c)
}

/// The elements of an array of a type.
pub fn elements(
    alloc: Global,
    scopes: &Scopes,
    notes: &mut Notes,
    ty: IntType,
    elements: &[Expression],
) -> Result<TExprList, AllocError>
    ensures { IfOk result (λ ts. AreElements scopes.now notes.old notes.new ty elements.now ts) }
{
    let mut typed = Items::new(alloc);
    for e in elements {
        let x = expression(alloc, scopes, notes, e)?;
        let t = converted_to(alloc, ty, x)?;
        typed.push(t)?;
    }
    Ok(typed)
}
