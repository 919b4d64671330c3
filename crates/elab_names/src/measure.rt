//! Constant expressions: length, sign and value (IEEE 1364-2005, 5.4 and 5.5).

ghost use Rattle.std.specs.Prelude.{◌≡◌, map, IfOk, Some, None, true, false};
ghost use Rattle.elab_names.specs.declared.measure.Measured.TheVariants as a;
ghost use Rattle.elab_names.specs.Operators.{form_of as form_of_of};
ghost use Rattle.elab_names.specs.Constants.{both, standing, IsIn, IsContext};
ghost use Rattle.elab_names.specs.Names.{entry_standing as entry_standing_of};
ghost use Rattle.elab_names.specs.Selects.{number_of as number_of_of, select_standing as select_standing_of};
ghost use Rattle.elab_names.specs.Measured.{worth_of, greater as greater_of, signed_if_both as signed_if_both_of, length_of as length_of_of, signed_of as signed_of_of, worth_in as worth_in_of, own_context as own_context_of, by_itself as by_itself_of, common_context as common_context_of, bit_standing as bit_standing_of, compared as compared_of, by_form as by_form_of, by_operator as by_operator_of, sum_length as sum_length_of, joined_words as joined_words_of, beside as beside_of, without_sign as without_sign_of, with_part as with_part_of, with_parts, or_nothing as or_nothing_of, concatenation, copies as copies_of, counted as counted_of, replicated as replicated_of, with_sign as with_sign_of, measured, choice_of as choice_of_of, constant_of as constant_of_of};

use crate::constant::{Standing, Worth, context_of, extended, literal_constant, literal_standing};
use crate::context::Context;
use crate::names::{Entry, Turn};
use crate::operator::{
    Form, arithmetic_worth, chosen, comparison_worth, form_of, is_reduction, logical_worth,
    reduced_worth, shifted_worth, sign_of, unary_worth,
};
use crate::scope::{Names, entry_standing};
use crate::select::{Choice, Number, number_of, select_standing};
use bits_core::Word;
use sqlite_items::Boxed;
use std::alloc::{AllocError, Global};
use v_tree::{BinaryOp, Expr, Selection, UnaryOp};

/// An expression as its context sees it: what stands for itself has a value, the rest waits for a width and a sign.
#[derive(Drop)]
pub enum Measured {
    Standing(Standing),
    Unary(UnaryOp, Boxed<Measured>),
    Arithmetic(BinaryOp, Boxed<Measured>, Boxed<Measured>),
    /// What is shifted waits; the amount stands for itself.
    Shift(BinaryOp, Boxed<Measured>, Worth),
    /// The condition stands for itself; both branches wait.
    Conditional(Worth, Boxed<Measured>, Boxed<Measured>),
}

/// The greater of two lengths.
pub fn greater(x: Option<u8>, y: Option<u8>) -> Option<u8>
    ensures { result ≡ greater_of x y }
{
    match x {
        Some(x) => match y {
            Some(y) => Some(x.max(y)),
            None => None,
        },
        None => None,
    }
}

fn signed_if_both(x: Option<bool>, y: Option<bool>) -> Option<bool>
    ensures { result ≡ signed_if_both_of x y }
{
    match x {
        Some(x) => match y {
            Some(y) => Some(x && y),
            None => None,
        },
        None => None,
    }
}

/// The length of an expression; 129 stands for all that are longer than 128.
pub fn length_of(e: &Measured) -> Option<u8>
    ensures { result ≡ length_of_of e.now }
{
    match e {
        Measured::Standing(s) => s.length,
        Measured::Unary(_, p) => length_of(p.get()),
        Measured::Arithmetic(_, p, q) => {
            let x = length_of(p.get());
            let y = length_of(q.get());
            greater(x, y)
        }
        Measured::Shift(_, p, _) => length_of(p.get()),
        Measured::Conditional(_, p, q) => {
            let x = length_of(p.get());
            let y = length_of(q.get());
            greater(x, y)
        }
    }
}

/// Whether an expression is signed.
pub fn signed_of(e: &Measured) -> Option<bool>
    ensures { result ≡ signed_of_of e.now }
{
    match e {
        Measured::Standing(s) => s.signed,
        Measured::Unary(_, p) => signed_of(p.get()),
        Measured::Arithmetic(_, p, q) => {
            let x = signed_of(p.get());
            let y = signed_of(q.get());
            signed_if_both(x, y)
        }
        Measured::Shift(_, p, _) => signed_of(p.get()),
        Measured::Conditional(_, p, q) => {
            let x = signed_of(p.get());
            let y = signed_of(q.get());
            signed_if_both(x, y)
        }
    }
}

/// The value of an expression in a context.
pub fn worth_in(context: Option<Context>, e: &Measured) -> Worth
    requires { IsContext context }
    ensures value { result ≡ worth_in_of context e.now }
    ensures within { IsIn context result }
{
    match e {
        Measured::Standing(s) => extended(context, s.worth),
        Measured::Unary(op, p) => {
            let x = worth_in(context, p.get());
            unary_worth(context, *op, x)
        }
        Measured::Arithmetic(op, p, q) => {
            let x = worth_in(context, p.get());
            let y = worth_in(context, q.get());
            arithmetic_worth(context, *op, x, y)
        }
        Measured::Shift(op, p, amount) => {
            let x = worth_in(context, p.get());
            shifted_worth(context, *op, x, *amount)
        }
        Measured::Conditional(condition, p, q) => {
            let x = worth_in(context, p.get());
            let y = worth_in(context, q.get());
            chosen(context, *condition, x, y)
        }
    }
}

fn own_context(e: &Measured) -> Option<Context>
    ensures value { result ≡ own_context_of e.now }
    ensures proper { IsContext result }
{
    context_of(length_of(e), signed_of(e))
}

/// An expression that stands for itself.
pub fn by_itself(e: &Measured) -> Standing
    ensures { result ≡ by_itself_of e.now }
{
    Standing {
        length: length_of(e),
        signed: signed_of(e),
        worth: worth_in(own_context(e), e),
    }
}

fn common_context(p: &Measured, q: &Measured) -> Option<Context>
    ensures value { result ≡ common_context_of p.now q.now }
    ensures proper { IsContext result }
{
    context_of(
        greater(length_of(p), length_of(q)),
        signed_if_both(signed_of(p), signed_of(q)),
    )
}

fn bit_standing(worth: Worth) -> Standing
    ensures { result ≡ bit_standing_of worth }
{
    Standing {
        length: Some(1),
        signed: Some(false),
        worth,
    }
}

fn compared(op: BinaryOp, p: &Measured, q: &Measured) -> Standing
    ensures { result ≡ compared_of op p.now q.now }
{
    let context = common_context(p, q);
    let x = worth_in(context, p);
    let y = worth_in(context, q);
    bit_standing(comparison_worth(context, op, x, y))
}

fn by_form(alloc: Global, op: BinaryOp, p: Measured, q: Measured) -> Result<Measured, AllocError>
    ensures { IfOk result (λ e. e ≡ by_form_of (form_of_of op) op p q) }
{
    match form_of(op) {
        Form::Arithmetic => Ok(Measured::Arithmetic(
            op,
            Boxed::new(alloc, p)?,
            Boxed::new(alloc, q)?,
        )),
        Form::Shift => {
            let amount = by_itself(&q).worth;
            Ok(Measured::Shift(op, Boxed::new(alloc, p)?, amount))
        }
        Form::Comparison => Ok(Measured::Standing(compared(op, &p, &q))),
        Form::Logical => {
            let x = by_itself(&p).worth;
            let y = by_itself(&q).worth;
            Ok(Measured::Standing(bit_standing(logical_worth(op, x, y))))
        }
    }
}

fn by_operator(alloc: Global, op: UnaryOp, p: Measured) -> Result<Measured, AllocError>
    ensures { IfOk result (λ e. e ≡ by_operator_of op p) }
{
    if is_reduction(op) {
        let x = by_itself(&p).worth;
        Ok(Measured::Standing(bit_standing(reduced_worth(op, x))))
    } else {
        Ok(Measured::Unary(op, Boxed::new(alloc, p)?))
    }
}

fn sum_length(x: Option<u8>, y: Option<u8>) -> Option<u8>
    ensures { result ≡ sum_length_of x y }
{
    match x {
        Some(x) => match y {
            Some(y) => {
                let sum = u16::from(x) + u16::from(y);
                if sum < 129 {
                    Some(sum as u8)
                } else {
                    Some(129)
                }
            }
            None => None,
        },
        None => None,
    }
}

fn joined_words(v: Word, w: Word) -> Worth
    ensures { result ≡ joined_words_of v w }
{
    if u16::from(v.width()) + u16::from(w.width()) > 128 {
        Worth::Open
    } else {
        Worth::Value(v.join(w))
    }
}

fn joined_worth(x: Worth, y: Worth) -> Worth
    ensures { result ≡ both x y joined_words_of }
{
    match x {
        Worth::Value(m) => match y {
            Worth::Value(n) => joined_words(m, n),
            Worth::Open => Worth::Open,
            Worth::NotConstant => Worth::NotConstant,
        },
        Worth::Open => match y {
            Worth::NotConstant => Worth::NotConstant,
            Worth::Open => Worth::Open,
            Worth::Value(_) => Worth::Open,
        },
        Worth::NotConstant => Worth::NotConstant,
    }
}

fn beside(p: Standing, q: Standing) -> Standing
    ensures { result ≡ beside_of p q }
{
    Standing {
        length: sum_length(p.length, q.length),
        signed: Some(false),
        worth: joined_worth(p.worth, q.worth),
    }
}

fn with_sign(signed: bool, s: Standing) -> Standing
    ensures { result ≡ with_sign_of signed s }
{
    Standing {
        length: s.length,
        signed: Some(signed),
        worth: s.worth,
    }
}

fn with_part(so_far: Option<Standing>, p: Standing) -> Option<Standing>
    ensures { result ≡ with_part_of so_far p }
{
    match so_far {
        None => Some(with_sign(false, p)),
        Some(so_far) => Some(beside(so_far, p)),
    }
}

fn or_nothing(s: Option<Standing>) -> Standing
    ensures { result ≡ or_nothing_of s }
{
    match s {
        None => Standing {
            length: Some(0),
            signed: Some(false),
            worth: Worth::Open,
        },
        Some(s) => s,
    }
}

fn copies(more: u8, s: &Standing) -> Standing
    ensures { result ≡ copies_of more s.now }
{
    if more == 0 {
        *s
    } else {
        let rest = copies(more - 1, s);
        beside(rest, *s)
    }
}

fn open_bits(worth: Worth) -> Standing
    ensures { result ≡ standing None (Some false) worth }
{
    Standing {
        length: None,
        signed: Some(false),
        worth,
    }
}

fn counted(n: i64, s: Standing) -> Standing
    ensures { result ≡ counted_of n s }
{
    if n < 1 {
        open_bits(Worth::Open)
    } else if n > 128 {
        open_bits(Worth::Open)
    } else {
        let more = n as u8 - 1;
        copies(more, &s)
    }
}

fn replicated(count: Number, s: Standing) -> Standing
    ensures { result ≡ replicated_of count s }
{
    match count {
        Number::Known(n) => counted(n, s),
        Number::Open => open_bits(Worth::Open),
        Number::NotConstant => open_bits(Worth::NotConstant),
    }
}

fn conditional(
    alloc: Global,
    condition: &Measured,
    p: Measured,
    q: Measured,
) -> Result<Measured, AllocError>
    ensures { IfOk result (λ e. e ≡ a.Conditional (worth_of (by_itself_of condition.now)) p q) }
{
    let c = by_itself(condition).worth;
    Ok(Measured::Conditional(c, Boxed::new(alloc, p)?, Boxed::new(alloc, q)?))
}

fn named(turns: &[Turn], entry: Option<Entry>) -> Measured
    ensures { result ≡ a.Standing (entry_standing_of turns.now entry) }
{
    Measured::Standing(entry_standing(turns, &entry))
}

fn selected(turns: &[Turn], entry: Option<Entry>, choice: Choice) -> Measured
    ensures { result ≡ a.Standing (select_standing_of turns.now entry choice) }
{
    Measured::Standing(select_standing(turns, &entry, choice))
}

/// What an expression is by the names round it.
#[cycle(parts)]
pub fn measure(
    alloc: Global,
    names: &Names,
    turns: &[Turn],
    e: &Expr,
) -> Result<Measured, AllocError>
    ensures { IfOk result (λ m. m ≡ measured names.now turns.now e.now) }
{
    match e {
        Expr::Literal(l) => Ok(Measured::Standing(literal_standing(literal_constant(l)))),
        Expr::Name(x) => Ok(named(turns, names.find(&x.name))),
        Expr::Select(x, s) => {
            let choice = choice_of(alloc, names, turns, s.get())?;
            Ok(selected(turns, names.find(&x.name), choice))
        }
        Expr::Unary(operator, p) => {
            let p = measure(alloc, names, turns, p.get())?;
            let m = by_operator(alloc, operator.op, p)?;
            Ok(m)
        }
        Expr::Binary(p, operator, q) => {
            let p = measure(alloc, names, turns, p.get())?;
            let q = measure(alloc, names, turns, q.get())?;
            let m = by_form(alloc, operator.op, p, q)?;
            Ok(m)
        }
        Expr::Conditional(c, p, q) => {
            let c = measure(alloc, names, turns, c.get())?;
            let p = measure(alloc, names, turns, p.get())?;
            let q = measure(alloc, names, turns, q.get())?;
            let m = conditional(alloc, &c, p, q)?;
            Ok(m)
        }
        Expr::Parentheses(_, p) => {
            let m = measure(alloc, names, turns, p.get())?;
            Ok(m)
        }
        Expr::Concatenation(_, parts) => {
            let s = parts_standing(alloc, names, turns, parts.as_slice())?;
            Ok(Measured::Standing(s))
        }
        Expr::Replication(_, count, parts) => {
            let n = own_number(alloc, names, turns, count.get())?;
            let s = parts_standing(alloc, names, turns, parts.as_slice())?;
            Ok(Measured::Standing(replicated(n, s)))
        }
        Expr::Signed(_, p) => {
            let s = own_standing(alloc, names, turns, p.get())?;
            Ok(Measured::Standing(with_sign(true, s)))
        }
        Expr::Unsigned(_, p) => {
            let s = own_standing(alloc, names, turns, p.get())?;
            Ok(Measured::Standing(with_sign(false, s)))
        }
    }
}

#[cycle(parts)]
fn own_standing(
    alloc: Global,
    names: &Names,
    turns: &[Turn],
    e: &Expr,
) -> Result<Standing, AllocError>
    ensures { IfOk result (λ s. s ≡ constant_of_of names.now turns.now e.now) }
{
    let m = measure(alloc, names, turns, e)?;
    Ok(by_itself(&m))
}

#[cycle(parts)]
fn own_number(alloc: Global, names: &Names, turns: &[Turn], e: &Expr) -> Result<Number, AllocError>
    ensures { IfOk result (λ n. n ≡ number_of_of (constant_of_of names.now turns.now e.now)) }
{
    let m = measure(alloc, names, turns, e)?;
    let s = by_itself(&m);
    Ok(number_of(s))
}

#[cycle(parts)]
fn parts_standing(
    alloc: Global,
    names: &Names,
    turns: &[Turn],
    parts: &[Expr],
) -> Result<Standing, AllocError>
    ensures { IfOk result (λ s. s ≡ concatenation (map (constant_of_of names.now turns.now) parts.now)) }
{
    let mut so_far: Option<Standing> = None;
    for p in parts {
        let s = own_standing(alloc, names, turns, p)?;
        so_far = with_part(so_far, s);
    }
    Ok(or_nothing(so_far))
}

/// A selection, its parts as numbers.
#[cycle(parts)]
pub fn choice_of(
    alloc: Global,
    names: &Names,
    turns: &[Turn],
    s: &Selection,
) -> Result<Choice, AllocError>
    ensures { IfOk result (λ c. c ≡ choice_of_of names.now turns.now s.now) }
{
    match s {
        Selection::Index(i) => {
            let i = own_number(alloc, names, turns, i.get())?;
            Ok(Choice::Index(i))
        }
        Selection::Range(h, l) => {
            let h = own_number(alloc, names, turns, h.get())?;
            let l = own_number(alloc, names, turns, l.get())?;
            Ok(Choice::Range(h, l))
        }
        Selection::Up(b, w) => {
            let b = own_number(alloc, names, turns, b.get())?;
            let w = own_number(alloc, names, turns, w.get())?;
            Ok(Choice::Up(b, w))
        }
        Selection::Down(b, w) => {
            let b = own_number(alloc, names, turns, b.get())?;
            let w = own_number(alloc, names, turns, w.get())?;
            Ok(Choice::Down(b, w))
        }
    }
}

/// An expression that must be constant, by itself.
pub fn constant_of(
    alloc: Global,
    names: &Names,
    turns: &[Turn],
    e: &Expr,
) -> Result<Standing, AllocError>
    ensures { IfOk result (λ s. s ≡ constant_of_of names.now turns.now e.now) }
{
    let s = own_standing(alloc, names, turns, e)?;
    Ok(s)
}
