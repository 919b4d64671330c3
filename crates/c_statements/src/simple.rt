//! Assignments, updates and calls that stand alone (C99 6.5.16, 6.5.2.4, 6.5.3.1).

ghost use Rattle.std.specs.Prelude.{◌≡◌, [], length, IfOk, OnOk};
ghost use Rattle.c_words.specs.Notes.{noted};
ghost use Rattle.c_statements.specs.Simple.{store_offences, slot_found as slot_found_of, frame_sites, call_node as call_node_of, step_op as step_op_of, update_type as update_type_of, amount_type as amount_type_of};
ghost use Rattle.c_statements.specs.Steps.{IsAim, IsUpdated, IsUpdate, IsStep, IsSimple};
ghost use Rattle.c_expressions.specs.Expressions.{type_found as type_found_of};

use crate::calls::{Callee, Signature, call, find_callee, initial};
use c_expressions::expressions::{converted_to, expression};
use c_names::paths::{Found, find_object};
use c_names::scope::Scopes;
use c_tree::{AssignmentMark, Call, Expression, Initializer, Path, Simple, StepMark, StepOperator};
use c_words::{INT, Notes, common, division_kind, number, other_kind, promoted, update_op};
use joint_ir::{
    BinaryOp, IntType, PropId, PropKind, SNode, Slot, TCall, TExpr, TExprList, TTarget, TUpdate,
};
use sqlite_items::{Boxed, Items};
use src_text::{Kind, Place};
use std::alloc::{AllocError, Global};

/// What is assigned, and its type.
#[derive(Drop)]
pub struct Aim {
    pub target: TTarget,
    pub ty: IntType,
}

fn note_store(notes: &mut Notes, place: Place, at: Found)
    ensures { notes.new ≡ noted notes.old (store_offences place at) [] }
{
    match at {
        Found::Unknown => notes.offence(place, Kind::CUnknownName),
        Found::Other => notes.offence(place, Kind::CNotAssignable),
        Found::Integer(o) => {
            if o.constant {
                notes.offence(place, Kind::CNotAssignable);
            }
        }
    }
}

fn slot_found(at: Found) -> Slot
    ensures { result ≡ slot_found_of at }
{
    match at {
        Found::Integer(o) => o.slot,
        _ => Slot::BoundValue,
    }
}

fn type_found(at: Found) -> IntType
    ensures { result ≡ type_found_of at }
{
    match at {
        Found::Integer(o) => o.ty,
        _ => INT,
    }
}

/// What is assigned.
pub fn target(
    alloc: Global,
    scopes: &Scopes,
    notes: &mut Notes,
    path: &Path,
) -> Result<Aim, AllocError>
    ensures { IfOk result (λ a. IsAim scopes.now notes.old notes.new path.now a) }
{
    match path {
        Path::Object(o) => {
            let place = o.name.place;
            let at = find_object(alloc, scopes, false, o)?;
            note_store(notes, place, at);
            Ok(Aim {
                target: TTarget {
                    place,
                    slot: slot_found(at),
                    index: None,
                    bounds: None,
                },
                ty: type_found(at),
            })
        }
        Path::Element(o, bracket, index) => {
            let place = o.name.place;
            let at = find_object(alloc, scopes, true, o)?;
            note_store(notes, place, at);
            let i = expression(alloc, scopes, notes, index.get())?;
            let id = PropId(number(notes.sites.len()));
            notes.site(PropKind::Bounds, *bracket)?;
            Ok(Aim {
                target: TTarget {
                    place,
                    slot: slot_found(at),
                    index: Some(Boxed::new(alloc, i)?),
                    bounds: Some(id),
                },
                ty: type_found(at),
            })
        }
    }
}

fn call_node(
    alloc: Global,
    notes: &mut Notes,
    place: Place,
    callee: Callee,
    args: TExprList,
) -> Result<SNode, AllocError>
    ensures typed { IfOk result (λ n. n ≡ call_node_of place callee (length notes.old.sites) args) }
    ensures notes { OnOk result (notes.new ≡ noted notes.old [] (frame_sites place callee)) }
{
    match callee {
        Callee::SetInputs => Ok(SNode::SetInputs),
        Callee::NextFrame => {
            let id = PropId(number(notes.sites.len()));
            notes.site(PropKind::Frame, place)?;
            Ok(SNode::NextFrame(id))
        }
        Callee::Declared(function) => Ok(SNode::Call(TCall {
            place,
            function,
            args,
        })),
        _ => Ok(SNode::Block(Items::new(alloc))),
    }
}

fn assign(
    alloc: Global,
    signatures: &[Signature],
    scopes: &Scopes,
    notes: &mut Notes,
    path: &Path,
    init: &Initializer,
) -> Result<SNode, AllocError>
    ensures { IfOk result (λ n. IsSimple signatures.now scopes.now notes.old notes.new (Simple.Assign path.now init.now) n) }
{
    let aim = target(alloc, scopes, notes, path)?;
    let ty = aim.ty;
    let value = initial(alloc, signatures, scopes, notes, ty, init)?;
    Ok(SNode::Store(aim.target, value))
}

fn call_alone(
    alloc: Global,
    signatures: &[Signature],
    scopes: &Scopes,
    notes: &mut Notes,
    c: &Call,
) -> Result<SNode, AllocError>
    ensures { IfOk result (λ n. IsSimple signatures.now scopes.now notes.old notes.new (Simple.Called c.now) n) }
{
    let at = find_callee(scopes, c);
    let args = call(alloc, signatures, scopes, notes, c)?;
    let node = call_node(alloc, notes, c.name.place, at, args)?;
    Ok(node)
}

fn step_op(operator: StepOperator) -> BinaryOp
    ensures { result ≡ step_op_of operator }
{
    match operator {
        StepOperator::Increment => BinaryOp::Add,
        StepOperator::Decrement => BinaryOp::Sub,
    }
}

/// The type in which `op=` works, by the types of the target and of the operand.
fn update_type(op: BinaryOp, target: IntType, operand: IntType) -> IntType
    ensures { result ≡ update_type_of op target operand }
{
    match op {
        BinaryOp::Shl | BinaryOp::Shr => promoted(target),
        _ => common(target, operand),
    }
}

/// The type to which the operand of `op=` is converted.
fn amount_type(op: BinaryOp, target: IntType, operand: IntType) -> IntType
    ensures { result ≡ amount_type_of op target operand }
{
    match op {
        BinaryOp::Shl | BinaryOp::Shr => promoted(operand),
        _ => update_type(op, target, operand),
    }
}

fn boxed(alloc: Global, e: Option<TExpr>) -> Result<Option<Boxed<TExpr>>, AllocError>
    ensures { IfOk result (λ x. x ≡ e) }
{
    match e {
        None => Ok(None),
        Some(e) => Ok(Some(Boxed::new(alloc, e)?)),
    }
}

/// An operator that works in a type, with its properties at a place.
fn updated(
    alloc: Global,
    notes: &mut Notes,
    op: BinaryOp,
    ty: IntType,
    right: Option<TExpr>,
    place: Place,
) -> Result<TUpdate, AllocError>
    ensures { IfOk result (λ u. IsUpdated notes.old notes.new op ty right place u) }
{
    let division = notes.prop(division_kind(op), place)?;
    let other = notes.prop(other_kind(op, ty.signed), place)?;
    let right = boxed(alloc, right)?;
    Ok(TUpdate {
        op,
        ty,
        right,
        division,
        other,
    })
}

/// `op=`
fn update(
    alloc: Global,
    scopes: &Scopes,
    notes: &mut Notes,
    path: &Path,
    mark: AssignmentMark,
    e: &Expression,
) -> Result<SNode, AllocError>
    ensures { IfOk result (λ n. IsUpdate scopes.now notes.old notes.new path.now mark e.now n) }
{
    let aim = target(alloc, scopes, notes, path)?;
    let x = expression(alloc, scopes, notes, e)?;
    let op = update_op(mark.operator);
    let ty = update_type(op, aim.ty, x.ty);
    let to = amount_type(op, aim.ty, x.ty);
    let right = converted_to(alloc, to, x)?;
    let update = updated(alloc, notes, op, ty, Some(right), mark.place)?;
    Ok(SNode::Update(aim.target, update))
}

/// `++` or `--`
fn step(
    alloc: Global,
    scopes: &Scopes,
    notes: &mut Notes,
    path: &Path,
    mark: StepMark,
) -> Result<SNode, AllocError>
    ensures { IfOk result (λ n. IsStep scopes.now notes.old notes.new path.now mark n) }
{
    let aim = target(alloc, scopes, notes, path)?;
    let op = step_op(mark.operator);
    let ty = common(aim.ty, INT);
    let update = updated(alloc, notes, op, ty, None, mark.place)?;
    Ok(SNode::Update(aim.target, update))
}

/// An assignment, an update or a call.
pub fn simple(
    alloc: Global,
    signatures: &[Signature],
    scopes: &Scopes,
    notes: &mut Notes,
    s: &Simple,
) -> Result<SNode, AllocError>
    ensures { IfOk result (λ n. IsSimple signatures.now scopes.now notes.old notes.new s.now n) }
{
    match s {
        Simple::Assign(path, init) => {
            let node = assign(alloc, signatures, scopes, notes, path, init)?;
            Ok(node)
        }
        Simple::Update(path, mark, e) => {
            let node = update(alloc, scopes, notes, path, *mark, e)?;
            Ok(node)
        }
        Simple::StepAfter(path, mark) => {
            let node = step(alloc, scopes, notes, path, *mark)?;
            Ok(node)
        }
        Simple::StepBefore(mark, path) => {
            let node = step(alloc, scopes, notes, path, *mark)?;
            Ok(node)
        }
        Simple::Called(c) => {
            let node = call_alone(alloc, signatures, scopes, notes, c)?;
            Ok(node)
        }
    }
}
