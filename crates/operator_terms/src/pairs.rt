//! Operators whose operands have one width.

ghost use Rattle.std.specs.Prelude.{◌≡◌, ℕ, ◌+◌, ◌*◌, ◌<◌, ◌≤◌, true, false, length, IfOk};
ghost use Rattle.bits_core.specs.Word.{at_zero};
ghost use Rattle.bits_core.specs.Ops.{width2};
ghost use Rattle.flat_tree.specs.Measures.{binary_row};
ghost use Rattle.flat_tree.specs.Operators.{form_of, binary_value};
ghost use Rattle.operator_terms.specs.Ways.{way_value, ordered as ordered_value, is_paired, paired_width};
ghost use Rattle.term_steps.specs.Adds.{Adds};
ghost use Rattle.word_eqs.specs.Gates.{gates2};
ghost use Rattle.word_eqs.specs.Graph.{IsGraph, width_in, MOST_TERMS};

use bits_core::{Op1, Op2};
use std::alloc::AllocError;
use term_steps::{choose, one, turned, two};
use v_tree::BinaryOp;
use word_eqs::{TermId, Terms};

/// An operation, whether its operands stand the other way round, and whether each bit of its result is turned.
#[derive(Clone, Copy)]
pub struct Way {
    pub op: Op2,
    pub swapped: bool,
    pub turned: bool,
}

/// How an operator is made where its operands have no sign.
fn unsigned_way(op: BinaryOp) -> Way
    requires { is_paired (form_of op) ≡ true }
    ensures value { (w a b : ℕ) → way_value result w a b ≡ binary_value op w false a b }
    ensures cost { (w v : ℕ) → gates2 result.op w ≤ binary_row op w v }
    ensures width { (w : ℕ) → width2 result.op w ≡ paired_width (form_of op) w }
{
    match op {
        BinaryOp::BitOr => Way {
            op: Op2::Or,
            swapped: false,
            turned: false,
        },
        BinaryOp::BitXor => Way {
            op: Op2::Xor,
            swapped: false,
            turned: false,
        },
        BinaryOp::BitXnor => Way {
            op: Op2::Xor,
            swapped: false,
            turned: true,
        },
        BinaryOp::BitAnd => Way {
            op: Op2::And,
            swapped: false,
            turned: false,
        },
        BinaryOp::Equal => Way {
            op: Op2::Eq,
            swapped: false,
            turned: false,
        },
        BinaryOp::NotEqual => Way {
            op: Op2::Eq,
            swapped: false,
            turned: true,
        },
        BinaryOp::Less => Way {
            op: Op2::LtU,
            swapped: false,
            turned: false,
        },
        BinaryOp::LessEqual => Way {
            op: Op2::LtU,
            swapped: true,
            turned: true,
        },
        BinaryOp::Greater => Way {
            op: Op2::LtU,
            swapped: true,
            turned: false,
        },
        BinaryOp::GreaterEqual => Way {
            op: Op2::LtU,
            swapped: false,
            turned: true,
        },
        BinaryOp::Add => Way {
            op: Op2::Add,
            swapped: false,
            turned: false,
        },
        BinaryOp::Subtract => Way {
            op: Op2::Sub,
            swapped: false,
            turned: false,
        },
        BinaryOp::Multiply => Way {
            op: Op2::Mul,
            swapped: false,
            turned: false,
        },
        BinaryOp::Divide => Way {
            op: Op2::DivU,
            swapped: false,
            turned: false,
        },
        BinaryOp::Remainder => Way {
            op: Op2::RemU,
            swapped: false,
            turned: false,
        },
        BinaryOp::LogicalOr => Way {
            op: Op2::Or,
            swapped: false,
            turned: false,
        },
        BinaryOp::LogicalAnd => Way {
            op: Op2::Or,
            swapped: false,
            turned: false,
        },
        BinaryOp::ShiftLeft => Way {
            op: Op2::Or,
            swapped: false,
            turned: false,
        },
        BinaryOp::ShiftRight => Way {
            op: Op2::Or,
            swapped: false,
            turned: false,
        },
        BinaryOp::ArithmeticShiftLeft => Way {
            op: Op2::Or,
            swapped: false,
            turned: false,
        },
        BinaryOp::ArithmeticShiftRight => Way {
            op: Op2::Or,
            swapped: false,
            turned: false,
        },
    }
}

/// How an operator is made where both operands are signed.
fn signed_way(op: BinaryOp) -> Way
    requires { is_paired (form_of op) ≡ true }
    ensures value { (w a b : ℕ) → way_value result w a b ≡ binary_value op w true a b }
    ensures cost { (w v : ℕ) → gates2 result.op w ≤ binary_row op w v }
    ensures width { (w : ℕ) → width2 result.op w ≡ paired_width (form_of op) w }
{
    match op {
        BinaryOp::BitOr => Way {
            op: Op2::Or,
            swapped: false,
            turned: false,
        },
        BinaryOp::BitXor => Way {
            op: Op2::Xor,
            swapped: false,
            turned: false,
        },
        BinaryOp::BitXnor => Way {
            op: Op2::Xor,
            swapped: false,
            turned: true,
        },
        BinaryOp::BitAnd => Way {
            op: Op2::And,
            swapped: false,
            turned: false,
        },
        BinaryOp::Equal => Way {
            op: Op2::Eq,
            swapped: false,
            turned: false,
        },
        BinaryOp::NotEqual => Way {
            op: Op2::Eq,
            swapped: false,
            turned: true,
        },
        BinaryOp::Less => Way {
            op: Op2::LtS,
            swapped: false,
            turned: false,
        },
        BinaryOp::LessEqual => Way {
            op: Op2::LtS,
            swapped: true,
            turned: true,
        },
        BinaryOp::Greater => Way {
            op: Op2::LtS,
            swapped: true,
            turned: false,
        },
        BinaryOp::GreaterEqual => Way {
            op: Op2::LtS,
            swapped: false,
            turned: true,
        },
        BinaryOp::Add => Way {
            op: Op2::Add,
            swapped: false,
            turned: false,
        },
        BinaryOp::Subtract => Way {
            op: Op2::Sub,
            swapped: false,
            turned: false,
        },
        BinaryOp::Multiply => Way {
            op: Op2::Mul,
            swapped: false,
            turned: false,
        },
        BinaryOp::Divide => Way {
            op: Op2::DivS,
            swapped: false,
            turned: false,
        },
        BinaryOp::Remainder => Way {
            op: Op2::RemS,
            swapped: false,
            turned: false,
        },
        BinaryOp::LogicalOr => Way {
            op: Op2::Or,
            swapped: false,
            turned: false,
        },
        BinaryOp::LogicalAnd => Way {
            op: Op2::Or,
            swapped: false,
            turned: false,
        },
        BinaryOp::ShiftLeft => Way {
            op: Op2::Or,
            swapped: false,
            turned: false,
        },
        BinaryOp::ShiftRight => Way {
            op: Op2::Or,
            swapped: false,
            turned: false,
        },
        BinaryOp::ArithmeticShiftLeft => Way {
            op: Op2::Or,
            swapped: false,
            turned: false,
        },
        BinaryOp::ArithmeticShiftRight => Way {
            op: Op2::Or,
            swapped: false,
            turned: false,
        },
    }
}

/// How an operator is made at a sign.
pub fn way_of(op: BinaryOp, signed: bool) -> Way
    requires { is_paired (form_of op) ≡ true }
    ensures value { (w a b : ℕ) → way_value result w a b ≡ binary_value op w signed a b }
    ensures cost { (w v : ℕ) → gates2 result.op w ≤ binary_row op w v }
    ensures width { (w : ℕ) → width2 result.op w ≡ paired_width (form_of op) w }
{
    if signed {
        signed_way(op)
    } else {
        unsigned_way(op)
    }
}

/// The operation, with its operands as they are to stand.
fn ordered(terms: &mut Terms, way: Way, a: TermId, b: TermId) -> Result<TermId, AllocError>
    requires a { a.0 < length terms.old.terms }
    requires b { b.0 < length terms.old.terms }
    requires width { width_in terms.old b.0 ≡ width_in terms.old a.0 }
    requires room { length terms.old.terms + 1 ≤ MOST_TERMS }
    ensures adds { IfOk result (λ t. Adds terms.old terms.new (width2 way.op (width_in terms.old a.0)) (λ v. ordered_value way.swapped way.op (width_in terms.old a.0) (v.term a.0).value (v.term b.0).value) (gates2 way.op (width_in terms.old a.0)) 1 t.0) }
    ensures proper { IsGraph terms.new }
{
    if way.swapped {
        let t = two(terms, way.op, b, a)?;
        return Ok(t);
    }
    let t = two(terms, way.op, a, b)?;
    Ok(t)
}

/// An operator on two terms of one width.
pub fn operate(terms: &mut Terms, way: Way, a: TermId, b: TermId) -> Result<TermId, AllocError>
    requires a { a.0 < length terms.old.terms }
    requires b { b.0 < length terms.old.terms }
    requires width { width_in terms.old b.0 ≡ width_in terms.old a.0 }
    requires room { length terms.old.terms + 2 ≤ MOST_TERMS }
    ensures adds { IfOk result (λ t. Adds terms.old terms.new (width2 way.op (width_in terms.old a.0)) (λ v. way_value way (width_in terms.old a.0) (v.term a.0).value (v.term b.0).value) (gates2 way.op (width_in terms.old a.0)) 2 t.0) }
    ensures proper { IsGraph terms.new }
{
    let x = ordered(terms, way, a, b)?;
    if way.turned {
        let t = turned(terms, x)?;
        return Ok(t);
    }
    Ok(x)
}

/// A quotient or a remainder; by 0 it is the site's number.
pub fn divided(
    terms: &mut Terms,
    way: Way,
    a: TermId,
    b: TermId,
    site: TermId,
) -> Result<TermId, AllocError>
    requires a { a.0 < length terms.old.terms }
    requires b { b.0 < length terms.old.terms }
    requires site { site.0 < length terms.old.terms }
    requires width { width_in terms.old b.0 ≡ width_in terms.old a.0 }
    requires sites { width_in terms.old site.0 ≡ width_in terms.old a.0 }
    requires same { width2 way.op (width_in terms.old a.0) ≡ width_in terms.old a.0 }
    requires room { length terms.old.terms + 4 ≤ MOST_TERMS }
    ensures adds { IfOk result (λ t. Adds terms.old terms.new (width_in terms.old a.0) (λ v. at_zero (v.term b.0).value (v.term site.0).value (way_value way (width_in terms.old a.0) (v.term a.0).value (v.term b.0).value)) (gates2 way.op (width_in terms.old a.0) + 6 * width_in terms.old a.0) 4 t.0) }
    ensures proper { IsGraph terms.new }
{
    let q = operate(terms, way, a, b)?;
    let any = one(terms, Op1::RedOr, b)?;
    let t = choose(terms, any, q, site)?;
    Ok(t)
}
