//! Expressions, typed (C99 6.5).

ghost use Rattle.std.specs.Prelude.{◌≡◌, [], length, IfOk, OnOk};
ghost use Rattle.c_words.specs.Notes.{noted};
ghost use Rattle.c_expressions.specs.Expressions.{converted_to as converted_to_of, type_or_int as type_or_int_of, operator_sites, comparison_typed, logic_typed, constant_typed, object_typed, placed as placed_of, unary_typed, unary_sites, cast_typed, operator_typed, binary_typed, mark_sites, choice_typed, element_typed, bounds_site, value_offences as value_offences_of, operand_type as operand_type_of, unary_type as unary_type_of};
ghost use Rattle.c_expressions.specs.Steps.{IsTyped, IsPathTyped, IsInteger};

use c_names::paths::{Found, find_object};
use c_names::scope::Scopes;
use c_tree::{Expression, Path, UnaryMark};
use c_words::{
    INT, Meaning, Notes, common, division_kind, meant, named, number, other_kind, promoted,
    read_literal, unary_kind, unary_op,
};
use joint_ir::{BinaryOp, IntType, LogicOp, PropId, PropKind, TExpr, TNode, UnaryOp};
use sqlite_items::Boxed;
use src_text::{Kind, Name, Place};
use std::alloc::{AllocError, Global};

/// An expression, converted to a type where it has another. Want of memory is the only error.
pub fn converted_to(alloc: Global, ty: IntType, e: TExpr) -> Result<TExpr, AllocError>
    ensures { IfOk result (λ t. t ≡ converted_to_of ty e) }
{
    if e.ty == ty {
        Ok(e)
    } else {
        let place = e.place;
        Ok(TExpr {
            ty,
            place,
            node: TNode::Convert(Boxed::new(alloc, e)?),
        })
    }
}

fn constant(place: Place, ty: IntType, value: u64) -> TExpr
    ensures { result ≡ constant_typed place ty value }
{
    TExpr {
        ty,
        place,
        node: TNode::Const(value as i128),
    }
}

fn type_or_int(ty: Option<IntType>) -> IntType
    ensures { result ≡ type_or_int_of ty }
{
    match ty {
        None => INT,
        Some(ty) => ty,
    }
}

/// An integer constant.
fn integer(notes: &mut Notes, place: Place, spelled: &Name) -> TExpr
    ensures { IsInteger notes.old notes.new place spelled.now result }
{
    let literal = read_literal(spelled.text().as_bytes());
    if literal.ty.is_none() {
        notes.offence(place, Kind::CLiteral);
    }
    constant(place, type_or_int(literal.ty), literal.value)
}

/// Notes what is wrong with a path that is used as a value.
fn note_found(notes: &mut Notes, place: Place, found: Found)
    ensures { notes.new ≡ noted notes.old (value_offences_of place found) [] }
{
    match found {
        Found::Unknown => notes.offence(place, Kind::CUnknownName),
        Found::Other => notes.offence(place, Kind::CNotInteger),
        Found::Integer(_) => {}
    }
}

fn object(notes: &mut Notes, place: Place, found: Found) -> TExpr
    ensures typed { result ≡ object_typed place found }
    ensures notes { notes.new ≡ noted notes.old (value_offences_of place found) [] }
{
    note_found(notes, place, found);
    match found {
        Found::Integer(target) => TExpr {
            ty: target.ty,
            place,
            node: TNode::Read(target.slot),
        },
        _ => constant(place, INT, 0),
    }
}

/// An element, whose index is typed, with the place of the `[`.
fn element(
    alloc: Global,
    notes: &mut Notes,
    place: Place,
    found: Found,
    index: TExpr,
    bracket: Place,
) -> Result<TExpr, AllocError>
    ensures typed { IfOk result (λ t. t ≡ element_typed place found index (length notes.old.sites)) }
    ensures notes { OnOk result (notes.new ≡ noted notes.old [] (bounds_site bracket)) }
{
    let id = PropId(number(notes.sites.len()));
    notes.site(PropKind::Bounds, bracket)?;
    match found {
        Found::Integer(target) => Ok(TExpr {
            ty: target.ty,
            place,
            node: TNode::Index(target.slot, Boxed::new(alloc, index)?, id),
        }),
        _ => Ok(constant(place, INT, 0)),
    }
}

/// Behind a parenthesis at a place.
fn placed(place: Place, e: TExpr) -> TExpr
    ensures { result ≡ placed_of place e }
{
    TExpr {
        ty: e.ty,
        place,
        node: e.node,
    }
}

fn operand_type(op: UnaryOp, ty: IntType) -> IntType
    ensures { result ≡ operand_type_of op ty }
{
    match op {
        UnaryOp::Not => ty,
        _ => promoted(ty),
    }
}

fn unary_type(op: UnaryOp, ty: IntType) -> IntType
    ensures { result ≡ unary_type_of op ty }
{
    match op {
        UnaryOp::Not => INT,
        _ => promoted(ty),
    }
}

fn unary(alloc: Global, notes: &mut Notes, mark: UnaryMark, e: TExpr) -> Result<TExpr, AllocError>
    ensures typed { IfOk result (λ t. t ≡ unary_typed (length notes.old.sites) mark e) }
    ensures notes { OnOk result (notes.new ≡ noted notes.old [] (unary_sites mark e.ty)) }
{
    let op = unary_op(mark.operator);
    let operand = operand_type(op, e.ty);
    let ty = unary_type(op, e.ty);
    let prop = notes.prop(unary_kind(op, ty.signed), mark.place)?;
    let x = converted_to(alloc, operand, e)?;
    Ok(TExpr {
        ty,
        place: mark.place,
        node: TNode::Unary(op, Boxed::new(alloc, x)?, prop),
    })
}

fn cast(alloc: Global, place: Place, ty: IntType, e: TExpr) -> Result<TExpr, AllocError>
    ensures { IfOk result (λ t. t ≡ cast_typed place ty e) }
{
    Ok(TExpr {
        ty,
        place,
        node: TNode::Convert(Boxed::new(alloc, e)?),
    })
}

/// An operator of a type over operands that are converted to types.
fn operator(
    alloc: Global,
    notes: &mut Notes,
    op: BinaryOp,
    ty: IntType,
    right: IntType,
    mark: Place,
    x: TExpr,
    y: TExpr,
) -> Result<TExpr, AllocError>
    ensures typed { IfOk result (λ t. t ≡ operator_typed (length notes.old.sites) op ty.signed ty ty right mark x y) }
    ensures notes { OnOk result (notes.new ≡ noted notes.old [] (operator_sites op ty.signed mark)) }
{
    let place = x.place;
    let division = notes.prop(division_kind(op), mark)?;
    let other = notes.prop(other_kind(op, ty.signed), mark)?;
    let l = converted_to(alloc, ty, x)?;
    let r = converted_to(alloc, right, y)?;
    Ok(TExpr {
        ty,
        place,
        node: TNode::Binary(
            op,
            Boxed::new(alloc, l)?,
            Boxed::new(alloc, r)?,
            division,
            other,
        ),
    })
}

fn comparison(alloc: Global, op: BinaryOp, x: TExpr, y: TExpr) -> Result<TExpr, AllocError>
    ensures { IfOk result (λ t. t ≡ comparison_typed op x y) }
{
    let place = x.place;
    let met = common(x.ty, y.ty);
    let l = converted_to(alloc, met, x)?;
    let r = converted_to(alloc, met, y)?;
    Ok(TExpr {
        ty: INT,
        place,
        node: TNode::Binary(op, Boxed::new(alloc, l)?, Boxed::new(alloc, r)?, None, None),
    })
}

fn logic(alloc: Global, op: LogicOp, x: TExpr, y: TExpr) -> Result<TExpr, AllocError>
    ensures { IfOk result (λ t. t ≡ logic_typed op x y) }
{
    let place = x.place;
    Ok(TExpr {
        ty: INT,
        place,
        node: TNode::Logic(op, Boxed::new(alloc, x)?, Boxed::new(alloc, y)?),
    })
}

fn binary(
    alloc: Global,
    notes: &mut Notes,
    meaning: Meaning,
    mark: Place,
    x: TExpr,
    y: TExpr,
) -> Result<TExpr, AllocError>
    ensures typed { IfOk result (λ t. t ≡ binary_typed (length notes.old.sites) meaning mark x y) }
    ensures notes { OnOk result (notes.new ≡ noted notes.old [] (mark_sites meaning x.ty y.ty mark)) }
{
    match meaning {
        Meaning::Logic(op) => {
            let t = logic(alloc, op, x, y)?;
            Ok(t)
        }
        Meaning::Arithmetic(op) => {
            let ty = common(x.ty, y.ty);
            let t = operator(alloc, notes, op, ty, ty, mark, x, y)?;
            Ok(t)
        }
        Meaning::Comparison(op) => {
            let t = comparison(alloc, op, x, y)?;
            Ok(t)
        }
        Meaning::Shift(op) => {
            let ty = promoted(x.ty);
            let right = promoted(y.ty);
            let t = operator(alloc, notes, op, ty, right, mark, x, y)?;
            Ok(t)
        }
    }
}

fn choice(alloc: Global, c: TExpr, x: TExpr, y: TExpr) -> Result<TExpr, AllocError>
    ensures { IfOk result (λ t. t ≡ choice_typed c x y) }
{
    let place = c.place;
    let ty = common(x.ty, y.ty);
    let first = converted_to(alloc, ty, x)?;
    let second = converted_to(alloc, ty, y)?;
    Ok(TExpr {
        ty,
        place,
        node: TNode::Choose(
            Boxed::new(alloc, c)?,
            Boxed::new(alloc, first)?,
            Boxed::new(alloc, second)?,
        ),
    })
}

/// A path that is used as a value.
#[cycle(typing)]
fn path(alloc: Global, scopes: &Scopes, notes: &mut Notes, x: &Path) -> Result<TExpr, AllocError>
    ensures { IfOk result (λ t. IsPathTyped scopes.now notes.old notes.new x.now t) }
{
    match x {
        Path::Object(o) => {
            let place = o.name.place;
            let at = find_object(alloc, scopes, false, o)?;
            let t = object(notes, place, at);
            Ok(t)
        }
        Path::Element(o, bracket, index) => {
            let place = o.name.place;
            let at = find_object(alloc, scopes, true, o)?;
            note_found(notes, place, at);
            let i = expression(alloc, scopes, notes, index.get())?;
            let t = element(alloc, notes, place, at, i, *bracket)?;
            Ok(t)
        }
    }
}

/// An expression that is used as a value: its typed form, with what is wrong in it and the properties in it noted. Want of
/// memory is the only error.
#[cycle(typing)]
pub fn expression(
    alloc: Global,
    scopes: &Scopes,
    notes: &mut Notes,
    e: &Expression,
) -> Result<TExpr, AllocError>
    ensures { IfOk result (λ t. IsTyped scopes.now notes.old notes.new e.now t) }
{
    match e {
        Expression::Integer(place, spelled) => {
            let t = integer(notes, *place, spelled);
            Ok(t)
        }
        Expression::Character(place, value) => Ok(constant(*place, INT, *value as u64)),
        Expression::True(place) => Ok(constant(*place, INT, 1)),
        Expression::False(place) => Ok(constant(*place, INT, 0)),
        Expression::Read(x) => {
            let t = path(alloc, scopes, notes, x)?;
            Ok(t)
        }
        Expression::Parentheses(place, a) => {
            let x = expression(alloc, scopes, notes, a.get())?;
            Ok(placed(*place, x))
        }
        Expression::Unary(mark, a) => {
            let x = expression(alloc, scopes, notes, a.get())?;
            let t = unary(alloc, notes, *mark, x)?;
            Ok(t)
        }
        Expression::Cast(place, ty, a) => {
            let x = expression(alloc, scopes, notes, a.get())?;
            let t = cast(alloc, *place, named(ty.integer), x)?;
            Ok(t)
        }
        Expression::Binary(a, mark, b) => {
            let x = expression(alloc, scopes, notes, a.get())?;
            let y = expression(alloc, scopes, notes, b.get())?;
            let t = binary(alloc, notes, meant(mark.operator), mark.place, x, y)?;
            Ok(t)
        }
        Expression::Conditional(c, _, a, b) => {
            let z = expression(alloc, scopes, notes, c.get())?;
            let x = expression(alloc, scopes, notes, a.get())?;
            let y = expression(alloc, scopes, notes, b.get())?;
            let t = choice(alloc, z, x, y)?;
            Ok(t)
        }
    }
}
