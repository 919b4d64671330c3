//! What statements weigh, with the calls in them.

ghost use Rattle.std.specs.Prelude.{◌≡◌, ◌+◌, ◌*◌, ◌<◌, ◌≤◌, ◌^◌, ◌++◌, ◌∷◌, [], min, take, length, slice_get, Some, nat_lt, true, count_by, eqb, if◌then◌else◌};
ghost use Rattle.joint_ir.specs.Weights.{capped as capped_of, weight as node_weight, init_weight, call_weight, return_weight, declare_weight, loop_weight, group_weight, entered_weight, function_weight, calls_weight, body_weight, turns_weight, CallWeights};
ghost use Rattle.joint_ir.specs.Weighed.{IsPlain, HasPlainLimit, setting_of, calls_of, stmts_weight, option_stmt_weight, groups_of_weight};
ghost use Rattle.joint_ir.specs.Statements.{is_below_limit, recursion_prop, ACTIVATIONS};
ghost use Rattle.joint_ir.specs.Steps.{limit_of as limit_is};

use super::exprs::capped;
use super::{exprs, parts};
use crate::bounds::{ACTIVATIONS, Bounds};
use crate::expr::TExpr;
use crate::lookup;
use crate::pair::Pair;
use crate::program::Function;
use crate::stmt::{Group, SNode, TCall, TInit, TLoop, TStmt};
use sqlite_items::Boxed;

/// What statements are weighed in: the pair and the bounds, the function whose body it is, the number of activations that
/// may stand besides, and whether the limits of functions are told by name alone.
#[derive(Clone, Copy)]
pub struct Scale<'a> {
    pub pair: &'a Pair,
    pub bounds: &'a Bounds,
    pub here: u32,
    pub left: u32,
    pub plain: bool,
}

/// A statement.
#[cycle(weigh)]
pub fn stmt(at: &Scale, standing: &[u32], s: &TStmt) -> u64
    requires props { length at.now.pair.now.program.props < 2 ^ 32 }
    requires room { length standing.now + at.now.left ≤ ACTIVATIONS }
    requires plain { IsPlain at.now }
    ensures value { result ≡ capped_of (node_weight (setting_of at.now) (calls_of at.now standing.now) s.now.node) }
    ensures bound { result ≤ 16777217 }
{
    match &s.node {
        SNode::Block(items) => capped(stmts(at, standing, items.as_slice()) + 16),
        SNode::Declare(x, value) => {
            let own = parts::elements(&at.pair.program, *x);
            capped(own + init(at, standing, value))
        }
        SNode::Store(target, value) => {
            let own = parts::target(&at.pair.program, target);
            capped(own + init(at, standing, value))
        }
        SNode::Update(target, update) => parts::update(&at.pair.program, target, update),
        SNode::Call(one) => call(at, standing, one),
        SNode::If(e, body, other) => {
            let e = e.get();
            let test = exprs::expr(&at.pair.program, e);
            let own = stmt(at, standing, body.get());
            let rest = option(at, standing, own, other);
            capped(test + e.ty.bits as u64 + 16 + rest)
        }
        SNode::Loop(one) => turns(at, standing, one),
        SNode::Switch(e, cases) => {
            let e = e.get();
            let test = exprs::expr(&at.pair.program, e);
            let own = groups(at, standing, e.ty.bits, cases.as_slice());
            capped(test + own + 16)
        }
        SNode::Break | SNode::Continue => 16,
        SNode::Return(None) => 16,
        SNode::Return(Some(value)) => {
            let own = parts::result(&at.pair.program, at.here);
            capped(own + init(at, standing, value))
        }
        SNode::Assert(e, _) | SNode::Assume(e) => {
            let e = e.get();
            capped(exprs::expr(&at.pair.program, e) + e.ty.bits as u64 + 16)
        }
        SNode::SetInputs => parts::drive(at.pair),
        SNode::NextFrame(_) => parts::frame(at.pair),
    }
}

/// Statements, one after another.
#[cycle(weigh)]
fn stmts(at: &Scale, standing: &[u32], items: &[TStmt]) -> u64
    requires props { length at.now.pair.now.program.props < 2 ^ 32 }
    requires room { length standing.now + at.now.left ≤ ACTIVATIONS }
    requires plain { IsPlain at.now }
    ensures value { result ≡ capped_of (stmts_weight (setting_of at.now) (calls_of at.now standing.now) items.now) }
    ensures bound { result ≤ 16777217 }
{
    let mut total = 0;
    for s in items {
        total = capped(total + stmt(at, standing, s));
        if total == 16_777_217 {
            return total;
        }
    }
    total
}

/// What weighs so much, and a statement that may be left out. It isn't weighed where that is too heavy already.
#[cycle(weigh)]
fn option(at: &Scale, standing: &[u32], first: u64, other: &Option<Boxed<TStmt>>) -> u64
    requires props { length at.now.pair.now.program.props < 2 ^ 32 }
    requires room { length standing.now + at.now.left ≤ ACTIVATIONS }
    requires plain { IsPlain at.now }
    requires first { first ≤ 16777217 }
    ensures value { result ≡ capped_of (first + option_stmt_weight (setting_of at.now) (calls_of at.now standing.now) other.now) }
    ensures bound { result ≤ 16777217 }
{
    match other {
        None => first,
        Some(s) => {
            if first == 16_777_217 {
                return first;
            }
            capped(first + stmt(at, standing, s.get()))
        }
    }
}

/// A loop.
#[cycle(weigh)]
fn turns(at: &Scale, standing: &[u32], one: &TLoop) -> u64
    requires props { length at.now.pair.now.program.props < 2 ^ 32 }
    requires room { length standing.now + at.now.left ≤ ACTIVATIONS }
    requires plain { IsPlain at.now }
    ensures value { result ≡ capped_of (loop_weight (setting_of at.now) (calls_of at.now standing.now) one.now) }
    ensures bound { result ≤ 16777217 }
{
    let heads = stmts(at, standing, one.heads.as_slice());
    if heads == 16_777_217 {
        return heads;
    }
    let test = parts::condition(&at.pair.program, &one.cond);
    let body = stmt(at, standing, one.body.get());
    let turn = option(at, standing, body, &one.step);
    let count = lookup::limit(at.bounds, one.unwind);
    capped(heads + (count as u64 * (test + turn + 16) + test + 16))
}

/// The groups of a switch over a type of so many bits.
#[cycle(weigh)]
fn groups(at: &Scale, standing: &[u32], bits: u8, cases: &[Group]) -> u64
    requires props { length at.now.pair.now.program.props < 2 ^ 32 }
    requires room { length standing.now + at.now.left ≤ ACTIVATIONS }
    requires plain { IsPlain at.now }
    ensures value { result ≡ capped_of (groups_of_weight (setting_of at.now) (calls_of at.now standing.now) bits cases.now) }
    ensures bound { result ≤ 16777217 }
{
    let mut total = 0;
    for group in cases {
        let labels = parts::labels(group.labels.as_slice(), bits);
        let own = stmts(at, standing, group.body.as_slice());
        total = capped(total + (labels + own));
        if total == 16_777_217 {
            return total;
        }
    }
    total
}

/// What an object is set to.
#[cycle(weigh)]
fn init(at: &Scale, standing: &[u32], value: &TInit) -> u64
    requires props { length at.now.pair.now.program.props < 2 ^ 32 }
    requires room { length standing.now + at.now.left ≤ ACTIVATIONS }
    requires plain { IsPlain at.now }
    ensures value { result ≡ capped_of (init_weight at.now.pair.now.program (calls_of at.now standing.now) value.now) }
    ensures bound { result ≤ 16777217 }
{
    match value {
        TInit::Free => 0,
        TInit::Values(es) => exprs::exprs(&at.pair.program, es.as_slice()),
        TInit::Called(one) => call(at, standing, one),
    }
}

/// A call, with its arguments.
#[cycle(weigh)]
fn call(at: &Scale, standing: &[u32], one: &TCall) -> u64
    requires props { length at.now.pair.now.program.props < 2 ^ 32 }
    requires room { length standing.now + at.now.left ≤ ACTIVATIONS }
    requires plain { IsPlain at.now }
    ensures value { result ≡ capped_of (call_weight at.now.pair.now.program (calls_of at.now standing.now) one.now) }
    ensures bound { result ≤ 16777217 }
{
    let args = exprs::exprs(&at.pair.program, one.args.as_slice());
    if args == 16_777_217 {
        return args;
    }
    capped(args + callee(at, standing, one.function))
}

/// A function that is called, where an activation of it may begin or not.
#[cycle(weigh)]
fn callee(at: &Scale, standing: &[u32], f: u32) -> u64
    requires props { length at.now.pair.now.program.props < 2 ^ 32 }
    requires room { length standing.now + at.now.left ≤ ACTIVATIONS }
    requires plain { IsPlain at.now }
    ensures value { result ≡ capped_of (calls_of at.now standing.now f) }
    ensures bound { result ≤ 16777217 }
{
    match at.pair.program.functions.get(f as usize) {
        None => 0,
        Some(function) => match &function.body {
            None => parts::bits_or_zero(function.result) as u64 + 16,
            Some(body) => {
                if at.left == 0 || !is_below(at, standing, f, function) {
                    return 16;
                }
                let inner = one_more(standing, f);
                let entered = Scale {
                    pair: at.pair,
                    bounds: at.bounds,
                    here: f,
                    left: at.left - 1,
                    plain: at.plain,
                };
                let own = parts::entry(&at.pair.program, function);
                capped(own + stmt(&entered, &inner[..standing.len() + 1], body))
            }
        },
    }
}

fn limit_of(at: &Scale, function: &Function) -> u32
    requires props { length at.now.pair.now.program.props < 2 ^ 32 }
    requires plain { at.now.plain ≡ true → HasPlainLimit at.now.pair.now.program at.now.bounds.now function.now }
    ensures { result ≡ limit_is at.now.bounds.now (recursion_prop at.now.pair.now.program function.now) }
{
    if at.plain {
        lookup::plain_limit(at.bounds, &at.pair.program, function)
    } else {
        lookup::function_limit(at.bounds, &at.pair.program, function)
    }
}

/// Fewer activations of a function stand than its limit.
fn is_below(at: &Scale, standing: &[u32], f: u32, function: &Function) -> bool
    requires props { length at.now.pair.now.program.props < 2 ^ 32 }
    requires plain { at.now.plain ≡ true → HasPlainLimit at.now.pair.now.program at.now.bounds.now function.now }
    ensures { result ≡ is_below_limit at.now.pair.now at.now.bounds.now standing.now f function.now }
{
    let stands = standing.iter().filter(|g| **g == f).count();
    stands < limit_of(at, function) as usize
}

/// The functions whose activations stand, with one more behind them, at the front of an array.
fn one_more(standing: &[u32], f: u32) -> [u32; ACTIVATIONS]
    requires { length standing.now < ACTIVATIONS }
    ensures { take (length standing.now + 1) result ≡ standing.now ++ f ∷ [] }
{
    let mut all = [0u32; ACTIVATIONS];
    for (k, g) in standing.iter().enumerate() {
        all[k] = *g;
    }
    all[standing.len()] = f;
    all
}
