//! Reductions, logical operators and the choice between two branches (5.1.9, 5.1.11, 5.1.13).

ghost use Rattle.std.specs.Prelude.{◌≡◌, ℕ, ◌+◌, ◌*◌, ◌<◌, ◌≤◌, ◌&&◌, ◌||◌, Bool, true, false, length, IfOk, if◌then◌else◌};
ghost use Rattle.bits_core.specs.Word.{bit};
ghost use Rattle.bits_core.specs.Ops.{width1};
ghost use Rattle.flat_tree.specs.Measures.{unary_row};
ghost use Rattle.flat_tree.specs.Operators.{truth, is_reduction, unary_value};
ghost use Rattle.operator_terms.specs.Ways.{unary_way_value, is_made};
ghost use Rattle.term_steps.specs.Adds.{Adds};
ghost use Rattle.word_eqs.specs.Gates.{gates1};
ghost use Rattle.word_eqs.specs.Graph.{IsGraph, width_in, MOST_TERMS};

use bits_core::{Op1, Op2};
use std::alloc::AllocError;
use term_steps::{choose, one, turned, two};
use v_tree::UnaryOp;
use word_eqs::{TermId, Terms};

/// An operation, and whether each bit of its result is turned.
#[derive(Clone, Copy)]
pub struct UnaryWay {
    pub op: Op1,
    pub turned: bool,
}

/// How a unary operator is made. `+` gives its operand and has no way.
pub fn unary_way(op: UnaryOp) -> UnaryWay
    requires { is_made op ≡ true }
    ensures value { (w a : ℕ) → unary_way_value result w a ≡ unary_value op w a }
    ensures cost { (w : ℕ) → gates1 result.op w ≤ 8 * unary_row op w }
    ensures width { (w : ℕ) → width1 result.op w ≡ (if is_reduction op then 1 else w) }
{
    match op {
        UnaryOp::Plus => UnaryWay {
            op: Op1::Not,
            turned: false,
        },
        UnaryOp::Minus => UnaryWay {
            op: Op1::Neg,
            turned: false,
        },
        UnaryOp::BitNot => UnaryWay {
            op: Op1::Not,
            turned: false,
        },
        UnaryOp::LogicalNot => UnaryWay {
            op: Op1::RedOr,
            turned: true,
        },
        UnaryOp::ReduceAnd => UnaryWay {
            op: Op1::RedAnd,
            turned: false,
        },
        UnaryOp::ReduceNand => UnaryWay {
            op: Op1::RedAnd,
            turned: true,
        },
        UnaryOp::ReduceOr => UnaryWay {
            op: Op1::RedOr,
            turned: false,
        },
        UnaryOp::ReduceNor => UnaryWay {
            op: Op1::RedOr,
            turned: true,
        },
        UnaryOp::ReduceXor => UnaryWay {
            op: Op1::RedXor,
            turned: false,
        },
        UnaryOp::ReduceXnor => UnaryWay {
            op: Op1::RedXor,
            turned: true,
        },
    }
}

/// A unary operator on a term.
pub fn unary(terms: &mut Terms, way: UnaryWay, a: TermId) -> Result<TermId, AllocError>
    requires a { a.0 < length terms.old.terms }
    requires room { length terms.old.terms + 2 ≤ MOST_TERMS }
    ensures adds { IfOk result (λ t. Adds terms.old terms.new (width1 way.op (width_in terms.old a.0)) (λ v. unary_way_value way (width_in terms.old a.0) (v.term a.0).value) (gates1 way.op (width_in terms.old a.0)) 2 t.0) }
    ensures proper { IsGraph terms.new }
{
    let x = one(terms, way.op, a)?;
    if way.turned {
        let t = turned(terms, x)?;
        return Ok(t);
    }
    Ok(x)
}

/// `&&` or `||` of two terms.
pub fn logical(terms: &mut Terms, and: bool, a: TermId, b: TermId) -> Result<TermId, AllocError>
    requires a { a.0 < length terms.old.terms }
    requires b { b.0 < length terms.old.terms }
    requires room { length terms.old.terms + 3 ≤ MOST_TERMS }
    ensures adds { IfOk result (λ t. Adds terms.old terms.new 1 (λ v. bit (if and then truth (v.term a.0).value && truth (v.term b.0).value else truth (v.term a.0).value || truth (v.term b.0).value)) (3 * width_in terms.old a.0 + 3 * width_in terms.old b.0 + 1) 3 t.0) }
    ensures proper { IsGraph terms.new }
{
    let x = one(terms, Op1::RedOr, a)?;
    let y = one(terms, Op1::RedOr, b)?;
    if and {
        let t = two(terms, Op2::And, x, y)?;
        return Ok(t);
    }
    let t = two(terms, Op2::Or, x, y)?;
    Ok(t)
}

/// The one of two terms that a condition chooses.
pub fn branch(terms: &mut Terms, test: TermId, a: TermId, b: TermId) -> Result<TermId, AllocError>
    requires test { test.0 < length terms.old.terms }
    requires a { a.0 < length terms.old.terms }
    requires b { b.0 < length terms.old.terms }
    requires width { width_in terms.old b.0 ≡ width_in terms.old a.0 }
    requires room { length terms.old.terms + 2 ≤ MOST_TERMS }
    ensures adds { IfOk result (λ t. Adds terms.old terms.new (width_in terms.old a.0) (λ v. if truth (v.term test.0).value then (v.term a.0).value else (v.term b.0).value) (3 * width_in terms.old test.0 + 3 * width_in terms.old a.0) 2 t.0) }
    ensures proper { IsGraph terms.new }
{
    let any = one(terms, Op1::RedOr, test)?;
    let t = choose(terms, any, a, b)?;
    Ok(t)
}
