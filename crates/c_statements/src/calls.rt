//! Calls, and what objects are set to (C99 6.5.2.2 and 6.5.16.1).

ghost use Rattle.std.specs.Prelude.{◌≡◌, [], slice_get, length, IfOk, OnOk};
ghost use Rattle.std.specs.Option.{option_copied};
ghost use Rattle.c_words.specs.Notes.{noted};
ghost use Rattle.c_statements.specs.Calls.{known_or as known_or_of, callee_of as callee_in, callee as callee_at, count_offences, body_offences, signature_offences, callee_offences, result_offences, void_offences, params_in as params_in_of, params_of as params_at, as_param as as_param_of, args_typed, called as called_of};
ghost use Rattle.c_statements.specs.Steps.{AreArgs, IsCall, IsInit};

use c_expressions::expressions::{converted_to, expression};
use c_names::scope::{Entry, Scopes};
use c_tree::{Call, Expression, Initializer};
use c_words::Notes;
use joint_ir::{IntType, TCall, TExpr, TExprList, TInit};
use sqlite_items::Items;
use src_text::{Kind, Name, Place};
use std::alloc::{AllocError, Global};

/// What a call needs to know of a function.
#[derive(Drop)]
pub struct Signature {
    /// None for `void`.
    pub result: Option<IntType>,
    pub params: Items<IntType>,
    /// Whether it has a body in the file, or is of the form that gives any value.
    pub callable: bool,
}

/// What is called.
#[derive(Clone, Copy, Debug, PartialEq, Eq)]
pub enum Callee {
    /// No name that is visible.
    Unknown,
    NotFunction,
    /// `set_inputs`
    SetInputs,
    /// `next_timeframe`
    NextFrame,
    /// By its place among the signatures.
    Declared(u32),
}

fn known_or(name: &Name, other: Callee) -> Callee
    ensures { result ≡ known_or_of name.now other }
{
    if name.text() == "set_inputs" {
        Callee::SetInputs
    } else if name.text() == "next_timeframe" {
        Callee::NextFrame
    } else {
        other
    }
}

fn callee_of(entry: Option<Entry>, name: &Name) -> Callee
    ensures { result ≡ callee_in entry name.now }
{
    match entry {
        None => known_or(name, Callee::Unknown),
        Some(Entry::Pending) => Callee::Unknown,
        Some(Entry::Object(_)) | Some(Entry::Mirror) => Callee::NotFunction,
        Some(Entry::Function(f)) => known_or(name, Callee::Declared(f)),
    }
}

/// What a call calls.
pub fn find_callee(scopes: &Scopes, call: &Call) -> Callee
    ensures { result ≡ callee_at scopes.now call.now }
{
    let entry = scopes.find(&call.name.name);
    callee_of(entry, &call.name.name)
}

fn note_count(notes: &mut Notes, place: Place, wanted: usize, given: usize)
    ensures { notes.new ≡ noted notes.old (count_offences place wanted given) [] }
{
    if wanted != given {
        notes.offence(place, Kind::CArgCount);
    }
}

fn note_body(notes: &mut Notes, place: Place, callable: bool)
    ensures { notes.new ≡ noted notes.old (body_offences place callable) [] }
{
    if !callable {
        notes.offence(place, Kind::CNoBody);
    }
}

fn note_signature(notes: &mut Notes, place: Place, given: usize, signature: Option<&Signature>)
    ensures { notes.new ≡ noted notes.old (signature_offences place given (option_copied signature.entry)) [] }
{
    match signature {
        None => {}
        Some(s) => {
            note_count(notes, place, s.params.len(), given);
            note_body(notes, place, s.callable);
        }
    }
}

fn note_callee(
    notes: &mut Notes,
    signatures: &[Signature],
    place: Place,
    given: usize,
    callee: Callee,
)
    ensures { notes.new ≡ noted notes.old (callee_offences signatures.now place given callee) [] }
{
    match callee {
        Callee::Unknown => notes.offence(place, Kind::CUnknownName),
        Callee::NotFunction => notes.offence(place, Kind::CNotFunction),
        Callee::SetInputs | Callee::NextFrame => note_count(notes, place, 0, given),
        Callee::Declared(f) => note_signature(notes, place, given, signatures.get(f as usize)),
    }
}

fn note_result(notes: &mut Notes, place: Place, signature: Option<&Signature>)
    ensures { notes.new ≡ noted notes.old (result_offences place (option_copied signature.entry)) [] }
{
    if let Some(s) = signature {
        if s.result.is_none() {
            notes.offence(place, Kind::CNotInteger);
        }
    }
}

fn note_void(notes: &mut Notes, signatures: &[Signature], place: Place, callee: Callee)
    ensures { notes.new ≡ noted notes.old (void_offences signatures.now place callee) [] }
{
    match callee {
        Callee::Unknown | Callee::NotFunction => {}
        Callee::SetInputs | Callee::NextFrame => notes.offence(place, Kind::CNotInteger),
        Callee::Declared(f) => note_result(notes, place, signatures.get(f as usize)),
    }
}

fn params_in<'a>(signature: Option<&'a Signature>) -> &'a [IntType]
    ensures { result.now ≡ params_in_of (option_copied signature.entry) }
{
    match signature {
        None => &[],
        Some(s) => s.params.as_slice(),
    }
}

fn params_of<'a>(signatures: &'a [Signature], callee: Callee) -> &'a [IntType]
    ensures { result.now ≡ params_at signatures.now callee }
{
    match callee {
        Callee::Declared(f) => params_in(signatures.get(f as usize)),
        _ => &[],
    }
}

fn as_param(alloc: Global, ty: Option<IntType>, x: TExpr) -> Result<TExpr, AllocError>
    ensures { IfOk result (λ t. t ≡ as_param_of ty x) }
{
    match ty {
        None => Ok(x),
        Some(ty) => {
            let argument = converted_to(alloc, ty, x)?;
            Ok(argument)
        }
    }
}

fn param(params: &[IntType], i: usize) -> Option<IntType>
    ensures { result ≡ slice_get params.now i }
{
    if i < params.len() {
        Some(params[i])
    } else {
        None
    }
}

fn arguments(
    alloc: Global,
    scopes: &Scopes,
    notes: &mut Notes,
    params: &[IntType],
    args: &[Expression],
) -> Result<TExprList, AllocError>
    ensures { IfOk result (λ ts. AreArgs scopes.now notes.old notes.new params.now args.now ts) }
{
    let mut typed = Items::new(alloc);
    for (i, e) in args.iter().enumerate() {
        let x = expression(alloc, scopes, notes, e)?;
        let t = as_param(alloc, param(params, i), x)?;
        typed.push(t)?;
    }
    Ok(typed)
}

/// The arguments of a call.
pub fn call(
    alloc: Global,
    signatures: &[Signature],
    scopes: &Scopes,
    notes: &mut Notes,
    call: &Call,
) -> Result<TExprList, AllocError>
    ensures { IfOk result (λ ts. IsCall signatures.now scopes.now notes.old notes.new call.now ts) }
{
    let at = find_callee(scopes, call);
    note_callee(notes, signatures, call.name.place, call.arguments.len(), at);
    let params = params_of(signatures, at);
    let args = arguments(alloc, scopes, notes, params, call.arguments.as_slice())?;
    Ok(args)
}

fn called(place: Place, callee: Callee, args: TExprList) -> TInit
    ensures { result ≡ called_of place callee args }
{
    match callee {
        Callee::Declared(function) => TInit::Called(TCall {
            place,
            function,
            args,
        }),
        _ => TInit::Free,
    }
}

/// What an object of a type is set to.
pub fn initial(
    alloc: Global,
    signatures: &[Signature],
    scopes: &Scopes,
    notes: &mut Notes,
    ty: IntType,
    init: &Initializer,
) -> Result<TInit, AllocError>
    ensures { IfOk result (λ t. IsInit signatures.now scopes.now notes.old notes.new ty init.now t) }
{
    match init {
        Initializer::Value(e) => {
            let x = expression(alloc, scopes, notes, e)?;
            let t = converted_to(alloc, ty, x)?;
            let values = Items::from_vec(vec![in alloc; t]?);
            Ok(TInit::Values(values))
        }
        Initializer::Called(c) => {
            let at = find_callee(scopes, c);
            note_void(notes, signatures, c.name.place, at);
            let args = call(alloc, signatures, scopes, notes, c)?;
            Ok(called(c.name.place, at, args))
        }
    }
}
