// The count of gates.

ghost use Rattle.std.specs.Prelude.{◌≡◌, ℕ, ◌+◌, ◌*◌, ◌≤◌, Some, length, slice_get};
ghost use Rattle.word_eqs.specs.declared.list.Step.{Step as Stepped};
ghost use Rattle.word_eqs.specs.Gates.{gates1, gates2, node_gates as node_gates_of, term_gates as term_gates_of, act_gates as act_gates_of, step_gates as step_gates_of, gate_count};
ghost use Rattle.word_eqs.specs.Graph.{FitsNode};
ghost use Rattle.word_eqs.specs.Guarded.{FitsAct, FitsStep};

use bits_core::{Op1, Op2};
use word_eqs::{Act, GuardedList, TermId, TermNode, Terms};

/// The gates of an operation on a word of so many bits.
fn one_gates(op: Op1, width: u64) -> u64
    requires { width ≤ 128 }
    ensures { result ≡ gates1 op width }
{
    match op {
        Op1::Not => 0,
        Op1::Neg => 10 * width,
        Op1::RedAnd | Op1::RedOr | Op1::RedXor => 3 * width,
    }
}

/// The gates of an operation on two words of so many bits.
fn two_gates(op: Op2, width: u64) -> u64
    requires { width ≤ 128 }
    ensures { result ≡ gates2 op width }
{
    match op {
        Op2::And | Op2::Or => width,
        Op2::Xor => 3 * width,
        Op2::Add | Op2::Sub => 10 * width,
        Op2::Mul => 11 * (width * width),
        Op2::DivU | Op2::DivS | Op2::RemU | Op2::RemS => 16 * (width * width) + 80 * width,
        Op2::Shl | Op2::ShrU | Op2::ShrS => 40 * width,
        Op2::Eq => 4 * width,
        Op2::LtU | Op2::LtS => 10 * width,
    }
}

/// The gates of a node.
fn node_gates(terms: &Terms, node: TermNode) -> u64
    requires { FitsNode terms.now (length terms.now.terms) node }
    ensures value { result ≡ node_gates_of terms.now node }
    ensures bound { result ≤ 272384 }
{
    let _ = terms.len();
    match node {
        TermNode::Const(_) | TermNode::Var(_) => 0,
        TermNode::One(op, a) => one_gates(op, terms.width_of(a) as u64),
        TermNode::Two(op, a, _) => two_gates(op, terms.width_of(a) as u64),
        TermNode::Choose(_, a, _) => 3 * (terms.width_of(a) as u64),
        TermNode::Resize(..) | TermNode::Slice(..) | TermNode::Join(..) => 0,
    }
}

/// The gates of all terms.
fn term_gates(terms: &Terms) -> u64
    ensures value { result ≡ term_gates_of terms.now }
    ensures bound { result ≤ 272384 * 2147483648 }
{
    let mut total = 0;
    for k in 0..terms.len() {
        total += node_gates(terms, terms.node(TermId(k)));
    }
    total
}

/// The gates of what a step does.
fn act_gates(terms: &Terms, act: Act) -> u64
    requires { FitsAct terms.now act }
    ensures value { result ≡ act_gates_of terms.now act }
    ensures bound { result ≤ 136 }
{
    match act {
        Act::Free(x) => terms.width_of_var(x) as u64,
        Act::Set(..) => 0,
        Act::Cut(t) | Act::Prop(_, t) => terms.width_of(t) as u64 + 8,
    }
}

/// The gates of all steps.
fn step_gates(terms: &Terms, list: &GuardedList) -> u64
    requires { (k : ℕ) (s : Stepped) → slice_get list.now k ≡ Some s → FitsStep terms.now s }
    ensures value { result ≡ step_gates_of terms.now list.now }
    ensures bound { result ≤ 136 * 4294967296 }
{
    let mut total = 0;
    for k in 0..list.len() {
        total += act_gates(terms, list.get(k).act);
    }
    total
}

/// The gates that terms and a list of steps are counted as. The steps have to fit the terms. It takes no memory, and time
/// linear in the numbers of both.
pub fn gates(terms: &Terms, list: &GuardedList) -> u64
    requires { (k : ℕ) (s : Stepped) → slice_get list.now k ≡ Some s → FitsStep terms.now s }
    ensures value { result ≡ gate_count terms.now list.now }
    ensures bound { result ≤ 272384 * 2147483648 + 136 * 4294967296 }
{
    term_gates(terms) + step_gates(terms, list)
}
