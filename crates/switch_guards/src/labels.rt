// Whether a value is one of the labels of a group.

ghost use Rattle.std.specs.Prelude.{◌≡◌, All, IfOk, false};
ghost use Rattle.std.specs.List.{list_any};
ghost use Rattle.joint_ir.specs.Statements.{is_case, is_default as is_default_of};
ghost use Rattle.joint_ir.specs.Types.{InRange, IsType};
ghost use Rattle.joint_ir.specs.WellFormed.{FitsLabel};
ghost use Rattle.joint_ir.specs.declared.stmt.Group.{out-Group};
ghost use Rattle.sized_terms.specs.Sized.{Has};
ghost use Rattle.switch_guards.specs.Entries.{IsBit, IsEither, IsOrLabel, number_of};

use bits_core::Op2;
use joint_ir::{Group, IntType, Label};
use sized_terms::SizedTerm;
use std::alloc::AllocError;
use unrolled::{Unrolled, room};

/// A bit that is 1 where another is, or where a value is a number.
fn or_equal(
    net: &mut Unrolled,
    ty: IntType,
    value: SizedTerm,
    any: SizedTerm,
    n: i128,
) -> Result<SizedTerm, AllocError>
    requires has { Has net.old.terms value }
    requires width { value.width ≡ ty.bits }
    requires ty { IsType ty }
    requires within { InRange ty n }
    requires any { Has net.old.terms any }
    requires one { any.width ≡ 1 }
    ensures { IfOk result (λ t. IsEither net.old net.new ty value any n t) }
{
    room(net, 3)?;
    let label = checked_terms::literal(&mut net.terms, ty, n)?;
    let same = sized_terms::two(&mut net.terms, Op2::Eq, label, value)?;
    let t = sized_terms::two(&mut net.terms, Op2::Or, any, same)?;
    Ok(t)
}

/// The same for a label; `default` is no number.
fn or_label(
    net: &mut Unrolled,
    ty: IntType,
    value: SizedTerm,
    any: SizedTerm,
    label: Label,
) -> Result<SizedTerm, AllocError>
    requires has { Has net.old.terms value }
    requires width { value.width ≡ ty.bits }
    requires ty { IsType ty }
    requires fits { FitsLabel ty label }
    requires any { Has net.old.terms any }
    requires one { any.width ≡ 1 }
    ensures { IfOk result (λ t. IsOrLabel net.old net.new ty value any label t) }
{
    // The terms are a graph.
    let _ = net.terms.len();
    match label {
        Label::Default => Ok(any),
        Label::Case(n) => {
            let t = or_equal(net, ty, value, any, n)?;
            Ok(t)
        }
    }
}

/// A bit that is 1 where a value is one of the labels.
pub fn is_label(
    net: &mut Unrolled,
    ty: IntType,
    value: SizedTerm,
    labels: &[Label],
) -> Result<SizedTerm, AllocError>
    requires has { Has net.old.terms value }
    requires width { value.width ≡ ty.bits }
    requires ty { IsType ty }
    requires fit { All (λ label. FitsLabel ty label) labels.now }
    ensures { IfOk result (λ t. IsBit net.old net.new t (λ v. list_any (is_case (number_of ty v value)) labels.now)) }
{
    let mut any = no_label(net)?;
    for label in labels {
        any = or_label(net, ty, value, any, *label)?;
    }
    Ok(any)
}

/// A bit that is 0.
fn no_label(net: &mut Unrolled) -> Result<SizedTerm, AllocError>
    ensures { IfOk result (λ t. IsBit net.old net.new t (λ v. false)) }
{
    room(net, 1)?;
    let t = sized_terms::constant(&mut net.terms, 1, 0)?;
    Ok(t)
}

fn is_default(label: Label) -> bool
    ensures { result ≡ is_default_of label }
{
    match label {
        Label::Case(_) => false,
        Label::Default => true,
    }
}

/// The group has the label `default`.
pub fn has_default(group: &Group) -> bool
    ensures { result ≡ list_any is_default_of (out-Group group.now).labels }
{
    let labels = group.labels.as_slice();
    labels.iter().any(|label| is_default(*label))
}
