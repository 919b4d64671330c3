//! Ranges of vectors and memories (IEEE 1364-2005, 4.3.1 and 4.9).

ghost use Rattle.std.specs.Prelude.{◌≡◌, IfOk, OnOk};
ghost use Rattle.elab_offences.specs.Noted.{Notes};
ghost use Rattle.elab_declaration_offences.specs.Ranges.{end_of as end_of_of, is_below as is_below_of, is_wrong_low as is_wrong_low_of, is_long as is_long_of, is_wrong_vector as is_wrong_vector_of, is_negative as is_negative_of, is_off_nought as is_off_nought_of, is_many as is_many_of, is_wrong_memory as is_wrong_memory_of, ends_offences, vector_offences, optional_offences, memory_offences};

use elab_names::measure::constant_of;
use elab_names::scope::Names;
use elab_names::select::{Number, number_of};
use elab_offences::constant_expression;
use elab_offences::rules::at_if;
use offence_order::First;
use src_text::Kind;
use std::alloc::{AllocError, Global};
use v_tree::{Expr, Range};

/// The greatest low end of a vector's range.
const MOST_LOW: i64 = 4_294_967_295;

fn end_of(alloc: Global, names: &Names, e: &Expr) -> Result<Number, AllocError>
    ensures { IfOk result (λ n. n ≡ end_of_of names.now e.now) }
{
    let s = constant_of(alloc, names, &[], e)?;
    Ok(number_of(s))
}

fn is_below(high: Number, low: Number) -> bool
    ensures { result ≡ is_below_of high low }
{
    match (high, low) {
        (Number::Known(h), Number::Known(l)) => h < l,
        _ => false,
    }
}

fn is_wrong_low(low: Number) -> bool
    ensures { result ≡ is_wrong_low_of low }
{
    match low {
        Number::Known(l) => l < 0 || l > MOST_LOW,
        Number::Open | Number::NotConstant => false,
    }
}

fn is_long(high: Number, low: Number) -> bool
    ensures { result ≡ is_long_of high low }
{
    match (high, low) {
        (Number::Known(h), Number::Known(l)) => i128::from(h) - i128::from(l) > 63,
        _ => false,
    }
}

fn is_wrong_vector(high: Number, low: Number) -> bool
    ensures { result ≡ is_wrong_vector_of high low }
{
    is_wrong_low(low) || (is_below(high, low) || is_long(high, low))
}

fn is_negative(end: Number) -> bool
    ensures { result ≡ is_negative_of end }
{
    match end {
        Number::Known(n) => n < 0,
        Number::Open | Number::NotConstant => false,
    }
}

fn is_off_nought(first: Number, last: Number) -> bool
    ensures { result ≡ is_off_nought_of first last }
{
    match (first, last) {
        (Number::Known(f), Number::Known(l)) => f != 0 && l != 0,
        _ => false,
    }
}

fn is_many(first: Number, last: Number) -> bool
    ensures { result ≡ is_many_of first last }
{
    match (first, last) {
        (Number::Known(f), Number::Known(l)) => {
            i128::from(f) - i128::from(l) > 4095 || i128::from(l) - i128::from(f) > 4095
        }
        _ => false,
    }
}

fn is_wrong_memory(first: Number, last: Number) -> bool
    ensures { result ≡ is_wrong_memory_of first last }
{
    (is_negative(first) || is_negative(last))
        || (is_off_nought(first, last) || is_many(first, last))
}

fn ends(alloc: Global, first: &mut First, names: &Names, r: &Range) -> Result<(), AllocError>
    ensures { OnOk result (Notes first.old first.new (ends_offences names.now r.now)) }
{
    constant_expression(alloc, first, names, &[], &r.high)?;
    constant_expression(alloc, first, names, &[], &r.low)?;
    Ok(())
}

/// The range of a vector: its ends, then whether it is one. It is told at its `[`.
pub fn vector_range(
    alloc: Global,
    first: &mut First,
    names: &Names,
    r: &Range,
) -> Result<(), AllocError>
    ensures { OnOk result (Notes first.old first.new (vector_offences names.now r.now)) }
{
    ends(alloc, first, names, r)?;
    let high = end_of(alloc, names, &r.high)?;
    let low = end_of(alloc, names, &r.low)?;
    at_if(first, is_wrong_vector(high, low), r.place, Kind::VRange);
    Ok(())
}

/// The range of a vector, if there is one.
pub fn optional_range(
    alloc: Global,
    first: &mut First,
    names: &Names,
    r: &Option<Range>,
) -> Result<(), AllocError>
    ensures { OnOk result (Notes first.old first.new (optional_offences names.now r.now)) }
{
    match r {
        None => Ok(()),
        Some(r) => vector_range(alloc, first, names, r),
    }
}

/// The range of a memory's words: its ends, then whether it is one. It is told at its `[`.
pub fn memory_range(
    alloc: Global,
    first: &mut First,
    names: &Names,
    r: &Range,
) -> Result<(), AllocError>
    ensures { OnOk result (Notes first.old first.new (memory_offences names.now r.now)) }
{
    ends(alloc, first, names, r)?;
    let start = end_of(alloc, names, &r.high)?;
    let last = end_of(alloc, names, &r.low)?;
    at_if(first, is_wrong_memory(start, last), r.place, Kind::VRange);
    Ok(())
}
