//! Small programs beside the counter, made as the definitions of `joint_laws` have them.

ghost use Rattle.std.specs.Prelude.{◌≡◌, ◌≤◌, List, [], ◌∷◌, IfOk, pos};
ghost use Rattle.word_eqs.specs.Graph.{Graph};
ghost use Rattle.joint_ir.specs.Types.{int as int_type};
ghost use Rattle.joint_ir.specs.WellFormed.{IsWellFormed};
ghost use Rattle.joint_laws.specs.Counting.{counting as counting_pair, counting_program};
ghost use Rattle.joint_laws.specs.Modules.{counter as counter_module};
ghost use Rattle.joint_laws.specs.Words.{signal as signal_of, member as member_of, expr as expr_of, stmt as stmt_of, number as number_of, compare, property as property_of};
ghost use Rattle.joint_laws.specs.Pairs.{adding_one as adding_pair};
ghost use Rattle.joint_laws.specs.Words.{here, int_var as int_var_of, nondet as nondet_of, sum, local as local_of, prop, stored as stored_of};
ghost use Rattle.show_replay.specs.Parts.{adding_body, adding_functions, adding_properties, body_of, main_with, mirror_of, no_mirror, properties_of};

use anyhow::{Context, Result};
use bits_core::{Op2, Word};
use joint_ir::{
    BinaryOp, Binding, CProgram, FlatModule, Function, INT, IntType, Link, Member, MirrorDecl,
    Pair, Prop, PropId, PropKind, Role, SNode, Signal, Slot, TCall, TExpr, TInit, TNode, TStmt,
    TTarget, Var,
};
use sqlite_items::{Boxed, Items};
use src_text::{Name, Place};
use std::alloc::Global;
use word_eqs::{TermId, TermNode, Terms};

const BYTE: IntType = IntType {
    bits: 8,
    signed: false,
    truth: false,
};

const HERE: Place = Place { line: 1, column: 1 };

/// A list of one item.
fn one<T: Drop>(alloc: Global, item: T) -> Result<Items<T>>
    ensures { IfOk result (λ items. items ≡ item ∷ []) }
{
    let mut items = Items::new(alloc);
    items.push(item)?;
    Ok(items)
}

/// A list of two items.
fn two<T: Drop>(alloc: Global, first: T, second: T) -> Result<Items<T>>
    ensures { IfOk result (λ items. items ≡ first ∷ second ∷ []) }
{
    let mut items = one(alloc, first)?;
    items.push(second)?;
    Ok(items)
}

/// A scalar signal.
fn signal(alloc: Global, role: Role, bits: u8) -> Result<Signal>
    ensures { IfOk result (λ s. s ≡ signal_of role bits 0) }
{
    Ok(Signal {
        path: Name::new(alloc, "")?,
        bits,
        signed: false,
        low: 0,
        words: 0,
        role,
    })
}

/// The sum of the counter's register and 1.
fn next_count(alloc: Global) -> Result<Terms>
    ensures { IfOk result (λ terms. terms ≡ counter_module.edge_terms) }
{
    let mut terms = Terms::new(alloc);
    let count = terms.var(8)?;
    let old = terms.add(TermNode::Var(count))?;
    let step = terms.add(TermNode::Const(Word::new(8, 1).context("no word")?))?;
    terms.add(TermNode::Two(Op2::Add, old, step))?;
    Ok(terms)
}

/// A register of 8 bits, which no term settles.
fn no_terms(alloc: Global) -> Result<Terms>
    ensures { IfOk result (λ terms. terms ≡ counter_module.settle_terms) }
{
    let mut terms = Terms::new(alloc);
    terms.var(8)?;
    Ok(terms)
}

/// A counter of 8 bits that begins at 0.
fn counter(alloc: Global) -> Result<FlatModule>
    ensures { IfOk result (λ m. m ≡ counter_module) }
{
    let clock = signal(alloc, Role::Clock, 1)?;
    let count = signal(alloc, Role::Register, 8)?;
    Ok(FlatModule {
        top: Name::new(alloc, "")?,
        instances: Items::new(alloc),
        signals: two(alloc, clock, count)?,
        firsts: one(alloc, Some(0))?,
        settle_terms: no_terms(alloc)?,
        settled: Items::new(alloc),
        edge_terms: next_count(alloc)?,
        next: one(alloc, TermId(2))?,
        settle_weight: 0,
        edge_weight: 12,
        settle_sites: Items::new(alloc),
        edge_sites: Items::new(alloc),
    })
}

fn expr(ty: IntType, node: TNode) -> TExpr
    ensures { result ≡ expr_of ty node }
{
    TExpr {
        ty,
        place: HERE,
        node,
    }
}

/// The count that the mirror shows, as an `int`.
fn count(alloc: Global) -> Result<TExpr>
    ensures { IfOk result (λ e. e ≡ member_of 0) }
{
    let read = expr(BYTE, TNode::Read(Slot::Member(0)));
    Ok(expr(INT, TNode::Convert(Boxed::new(alloc, read)?)))
}

/// Whether the count is a number.
fn count_is(alloc: Global, n: u8) -> Result<TExpr>
    ensures { IfOk result (λ e. e ≡ compare (BinaryOp.Eq) (member_of 0) (number_of n)) }
{
    let left = Boxed::new(alloc, count(alloc)?)?;
    let right = Boxed::new(alloc, expr(INT, TNode::Const(n as i128)))?;
    Ok(expr(INT, TNode::Binary(BinaryOp::Eq, left, right, None, None)))
}

fn stmt(node: SNode) -> TStmt
    ensures { result ≡ stmt_of node }
{
    TStmt { place: HERE, node }
}

/// `next_timeframe(); assert(counter.count == n);`
fn body(alloc: Global, n: u8) -> Result<SNode>
    ensures { IfOk result (λ s. s ≡ body_of n) }
{
    let edge = stmt(SNode::NextFrame(PropId(0)));
    let check = stmt(SNode::Assert(Boxed::new(alloc, count_is(alloc, n)?)?, PropId(1)));
    Ok(SNode::Block(two(alloc, edge, check)?))
}

/// `main`, with a body.
fn main_function(alloc: Global, body: SNode) -> Result<Function>
    ensures { IfOk result (λ f. f ≡ main_with body) }
{
    Ok(Function {
        name: Name::new(alloc, "")?,
        result: Some(INT),
        first: 0,
        params: 0,
        body: Some(stmt(body)),
    })
}

fn property(alloc: Global, kind: PropKind) -> Result<Prop>
    ensures { IfOk result (λ p. p ≡ property_of kind) }
{
    Ok(Prop {
        function: Name::new(alloc, "")?,
        kind,
        number: 1,
        line: 1,
    })
}

fn properties(alloc: Global) -> Result<Items<Prop>>
    ensures { IfOk result (λ ps. ps ≡ properties_of) }
{
    let frame = property(alloc, PropKind::Frame)?;
    let assertion = property(alloc, PropKind::Assertion)?;
    let mut properties = two(alloc, frame, assertion)?;
    properties.push(property(alloc, PropKind::Recursion)?)?;
    Ok(properties)
}

/// The mirror, with the count alone.
fn mirror(alloc: Global) -> Result<MirrorDecl>
    ensures { IfOk result (λ m. m ≡ mirror_of) }
{
    let count = Member {
        path: Name::new(alloc, "")?,
        place: HERE,
        ty: Some(BYTE),
        length: 0,
    };
    Ok(MirrorDecl {
        name: Name::new(alloc, "")?,
        place: HERE,
        members: one(alloc, count)?,
    })
}

fn program(alloc: Global, n: u8) -> Result<CProgram>
    ensures { IfOk result (λ p. p ≡ counting_program n) }
{
    let body = body(alloc, n)?;
    Ok(CProgram {
        functions: one(alloc, main_function(alloc, body)?)?,
        globals: Items::new(alloc),
        locals: Items::new(alloc),
        mirror: Some(mirror(alloc)?),
        props: properties(alloc)?,
        main: 0,
    })
}

/// The program beside the counter.
pub fn counting(alloc: Global, n: u8) -> Result<Pair>
    ensures pair { IfOk result (λ p. p ≡ counting_pair n) }
    ensures well { IfOk result IsWellFormed }
{
    Ok(Pair {
        program: program(alloc, n)?,
        module: counter(alloc)?,
        binding: Binding {
            links: one(
                alloc,
                Link {
                    member: 0,
                    signal: 1,
                },
            )?,
        },
    })
}

/// `int x = nondet_int();`
fn declaration(alloc: Global) -> SNode
    ensures { result ≡ SNode.Declare 0 (TInit.Called (record { place = here; function = 1; args = [] })) }
{
    SNode::Declare(
        0,
        TInit::Called(TCall {
            place: HERE,
            function: 1,
            args: Items::new(alloc),
        }),
    )
}

/// `x + 1`
fn one_more(alloc: Global) -> Result<TExpr>
    ensures { IfOk result (λ e. e ≡ sum (local_of 0) (number_of 1) (prop 0)) }
{
    let x = Boxed::new(alloc, expr(INT, TNode::Read(Slot::Local(0))))?;
    let step = Boxed::new(alloc, expr(INT, TNode::Const(1)))?;
    Ok(expr(
        INT,
        TNode::Binary(BinaryOp::Add, x, step, None, Some(PropId(0))),
    ))
}

/// `x = x + 1;`
fn addition(alloc: Global) -> Result<SNode>
    ensures { IfOk result (λ s. s ≡ stored_of 0 (sum (local_of 0) (number_of 1) (prop 0))) }
{
    let target = TTarget {
        place: HERE,
        slot: Slot::Local(0),
        index: None,
        bounds: None,
    };
    Ok(SNode::Store(target, TInit::Values(one(alloc, one_more(alloc)?)?)))
}

fn adding_statements(alloc: Global) -> Result<SNode>
    ensures { IfOk result (λ s. s ≡ adding_body) }
{
    let first = stmt(declaration(alloc));
    let second = stmt(addition(alloc)?);
    Ok(SNode::Block(two(alloc, first, second)?))
}

/// `int nondet_int(void);`
fn any_int(alloc: Global) -> Result<Function>
    ensures { IfOk result (λ f. f ≡ nondet_of int_type) }
{
    Ok(Function {
        name: Name::new(alloc, "")?,
        result: Some(INT),
        first: 0,
        params: 0,
        body: None,
    })
}

fn functions(alloc: Global) -> Result<Items<Function>>
    ensures { IfOk result (λ fs. fs ≡ adding_functions) }
{
    let main = main_function(alloc, adding_statements(alloc)?)?;
    two(alloc, main, any_int(alloc)?)
}

fn int_var(alloc: Global) -> Result<Var>
    ensures { IfOk result (λ v. v ≡ int_var_of) }
{
    Ok(Var {
        name: Name::new(alloc, "")?,
        ty: INT,
        length: 0,
        firsts: Items::new(alloc),
        constant: false,
    })
}

fn sum_properties(alloc: Global) -> Result<Items<Prop>>
    ensures { IfOk result (λ ps. ps ≡ adding_properties) }
{
    let overflow = property(alloc, PropKind::Overflow)?;
    two(alloc, overflow, property(alloc, PropKind::Recursion)?)
}

/// A mirror of nothing.
fn empty_mirror(alloc: Global) -> Result<MirrorDecl>
    ensures { IfOk result (λ m. m ≡ no_mirror) }
{
    Ok(MirrorDecl {
        name: Name::new(alloc, "")?,
        place: HERE,
        members: Items::new(alloc),
    })
}

fn adding_program(alloc: Global) -> Result<CProgram>
    ensures { IfOk result (λ p. p ≡ adding_pair.program) }
{
    Ok(CProgram {
        functions: functions(alloc)?,
        globals: Items::new(alloc),
        locals: one(alloc, int_var(alloc)?)?,
        mirror: Some(empty_mirror(alloc)?),
        props: sum_properties(alloc)?,
        main: 0,
    })
}

/// `int x = nondet_int(); x = x + 1;` beside the counter.
pub fn adding_one(alloc: Global) -> Result<Pair>
    ensures pair { IfOk result (λ p. p ≡ adding_pair) }
    ensures well { IfOk result IsWellFormed }
{
    Ok(Pair {
        program: adding_program(alloc)?,
        module: counter(alloc)?,
        binding: Binding {
            links: Items::new(alloc),
        },
    })
}
