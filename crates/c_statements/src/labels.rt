//! The labels of a `switch` (C99 6.8.1 and 6.8.4.2).

ghost use Rattle.std.specs.Prelude.{◌≡◌, ◌++◌, IfOk, OnOk};
ghost use Rattle.std.specs.List.{list_any};
ghost use Rattle.joint_ir.specs.WellFormed.{same_label as same_label_of};
ghost use Rattle.c_constants.specs.Constants.{told};
ghost use Rattle.c_statements.specs.Switches.{listed, case_of as case_at, twice_offences};
ghost use Rattle.c_statements.specs.Steps.{IsLabel, AreLabels};

use c_constants::{Constant, constant_in};
use c_names::scope::Scopes;
use c_tree::Label;
use c_words::Notes;
use joint_ir::{IntType, Label as TypedLabel, LabelList};
use joint_value::arith::converted;
use sqlite_items::Items;
use src_text::{Kind, Place};
use std::alloc::{AllocError, Global};

fn same_label(a: TypedLabel, b: TypedLabel) -> bool
    ensures { result ≡ same_label_of a b }
{
    match (a, b) {
        (TypedLabel::Case(m), TypedLabel::Case(n)) => m == n,
        (TypedLabel::Default, TypedLabel::Default) => true,
        _ => false,
    }
}

fn stood(seen: &[TypedLabel], l: TypedLabel) -> bool
    ensures { result ≡ list_any (same_label_of l) seen.now }
{
    seen.iter().any(|s| same_label(l, *s))
}

fn case_of(ty: IntType, c: Constant) -> Option<TypedLabel>
    ensures { listed result ≡ case_at ty c }
{
    match c {
        Constant::Is(n) => {
            if 0 < ty.bits && ty.bits <= 64 {
                Some(TypedLabel::Case(converted(ty, n)))
            } else {
                None
            }
        }
        Constant::Never | Constant::Undefined => None,
    }
}

fn note_twice(notes: &mut Notes, place: Place, seen: &[TypedLabel], found: Option<TypedLabel>)
    ensures { notes.new ≡ told notes.old (twice_offences place seen.now (listed found)) }
{
    if let Some(l) = found {
        if stood(seen, l) {
            notes.offence(place, Kind::CCase);
        }
    }
}

fn read_label(
    alloc: Global,
    scopes: &Scopes,
    notes: &mut Notes,
    ty: IntType,
    seen: &[TypedLabel],
    l: &Label,
) -> Result<Option<TypedLabel>, AllocError>
    ensures { IfOk result (λ found. IsLabel scopes.now notes.old notes.new ty l.now seen.now found) }
{
    match l {
        Label::Case(place, e) => {
            let c = constant_in(alloc, scopes, notes, *place, e)?;
            let found = case_of(ty, c);
            note_twice(notes, *place, seen, found);
            Ok(found)
        }
        Label::Default(place) => {
            let found = Some(TypedLabel::Default);
            note_twice(notes, *place, seen, found);
            Ok(found)
        }
    }
}

/// Adds a label, where its value is known.
fn keep(list: &mut LabelList, found: Option<TypedLabel>) -> Result<(), AllocError>
    ensures { OnOk result (list.new ≡ list.old ++ listed found) }
{
    match found {
        None => Ok(()),
        Some(label) => {
            list.push(label)?;
            Ok(())
        }
    }
}

/// The labels of a group, and what stood before in its switch.
pub fn read_labels(
    alloc: Global,
    scopes: &Scopes,
    notes: &mut Notes,
    ty: IntType,
    seen: &mut LabelList,
    labels: &[Label],
) -> Result<LabelList, AllocError>
    ensures { IfOk result (λ ls. AreLabels scopes.now notes.old notes.new ty labels.now seen.old seen.new ls) }
{
    let mut typed = Items::new(alloc);
    for l in labels {
        let found = read_label(alloc, scopes, notes, ty, seen.as_slice(), l)?;
        keep(seen, found)?;
        keep(&mut typed, found)?;
    }
    Ok(typed)
}
