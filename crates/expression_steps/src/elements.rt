// An element of an array.

ghost use Rattle.std.specs.Prelude.{◌≡◌, ◌+◌, ◌*◌, ◌<◌, ◌≤◌, ◌^◌, length, take, IfOk};
ghost use Rattle.joint_ir.specs.Values.{element_at};
ghost use Rattle.joint_ir.specs.Weights.{read_weight};
ghost use Rattle.bits_core.specs.Word.{number};
ghost use Rattle.sized_terms.specs.Sized.{Has};
ghost use Rattle.checked_terms.specs.Checked.{stands};
ghost use Rattle.element_terms.specs.Elements.{AreElements};
ghost use Rattle.expression_steps.specs.Asking.{IsDone};
ghost use Rattle.expression_steps.specs.Objects.{numbers_of};
ghost use Rattle.word_eqs.specs.Graph.{MOST_TERMS};

use crate::steps::push_checks;
use checked_terms::{Check, Checked};
use joint_ir::IntType;
use joint_ir::program::PropId;
use sized_terms::SizedTerm;
use std::alloc::AllocError;
use unrolled::{Unrolled, room};
use word_eqs::TermId;

/// The number of elements that there may be: each makes three terms or fewer.
const MOST: usize = 268435456;

/// The number of elements, where there is room for their terms.
fn counted(net: &Unrolled, elements: &[TermId]) -> Result<u32, AllocError>
    ensures count { IfOk result (λ n. n ≡ length elements.now) }
    ensures few { IfOk result (λ n. n ≤ 268435456) }
    ensures room { IfOk result (λ n. length net.now.terms.terms + (3 + 3 * n) ≤ MOST_TERMS) }
{
    if elements.len() > MOST {
        return Err(AllocError);
    }
    let count = elements.len() as u32;
    room(net, 3 + 3 * count)?;
    Ok(count)
}

/// The elements that an index of so many bits can name.
fn reached(elements: &[TermId], width: u8) -> &[TermId]
    requires { length elements.now ≤ 268435456 }
    ensures { result.now ≡ take (2 ^ width) elements.now }
{
    if width < 32 {
        let most = 1usize << (width as u32);
        if most < elements.len() {
            return &elements[..most];
        }
    }
    elements
}

/// An element of an array, with the check of its index (C99 6.5.2.1, 6.5.6 paragraph 8).
pub fn element(
    net: &mut Unrolled,
    elements: &[TermId],
    from: IntType,
    ty: IntType,
    prop: PropId,
    x: SizedTerm,
    guard: SizedTerm,
) -> Result<Checked, AllocError>
    requires has { Has net.old.terms x }
    requires width { x.width ≡ from.bits }
    requires filled { 0 < length elements.now }
    requires elements { AreElements net.old.terms elements.now ty.bits }
    ensures { IfOk result (λ r. IsDone net.old net.new ty (8 * read_weight (length elements.now) from.bits ty.bits) (3 + 3 * length elements.now) guard r (λ v. element_at (numbers_of (number ty.signed ty.bits) v elements.now) prop (stands from v x))) }
{
    // The terms are a graph.
    let _ = net.terms.len();
    let count = counted(net, elements)?;
    let test = element_terms::within(&mut net.terms, x, from.signed, count)?;
    let value = element_terms::read(&mut net.terms, x, reached(elements, x.width), ty.bits)?;
    let r = Checked {
        division: None,
        other: Some(Check { prop, test }),
        value,
    };
    push_checks(net, guard, r)?;
    Ok(r)
}
