//! The shapes that ranges give (IEEE 1364-2005, 4.3.1 and 4.9).

ghost use Rattle.std.specs.Prelude.{◌≡◌, IfOk, IfSome};
ghost use Rattle.elab_declarations.specs.Shapes.{IsShape, end_of as end_of_of, vector as vector_of, vector_shape as vector_shape_of, words_to as words_to_of, words_between as words_between_of, memory_words as memory_words_of, with_words as with_words_of, range_shape as range_shape_of, shape_of as shape_of_of, memory_shape as memory_shape_of};

use elab_names::measure::constant_of;
use elab_names::names::Shape;
use elab_names::scope::Names;
use elab_names::select::{Number, number_of};
use std::alloc::{AllocError, Global};
use v_tree::{Expr, Range};

/// The greatest low end of a vector's range.
const MOST_LOW: i64 = 4_294_967_295;

/// The greatest end of a memory's range.
const MOST_END: i64 = 4095;

fn vector(high: i64, low: i64) -> Option<Shape>
    ensures value { result ≡ vector_of high low }
    ensures some { IfSome result IsShape }
{
    if high < low {
        None
    } else if low < 0 {
        None
    } else if low > MOST_LOW {
        None
    } else {
        let more = i128::from(high) - i128::from(low);
        if more > 63 {
            None
        } else {
            Some(Shape {
                bits: more as u8 + 1,
                low: low as u32,
                words: 0,
            })
        }
    }
}

fn vector_shape(high: Number, low: Number) -> Option<Shape>
    ensures value { result ≡ vector_shape_of high low }
    ensures some { IfSome result IsShape }
{
    match high {
        Number::Known(h) => match low {
            Number::Known(l) => vector(h, l),
            Number::Open => None,
            Number::NotConstant => None,
        },
        Number::Open => None,
        Number::NotConstant => None,
    }
}

fn words_to(end: i64) -> Option<u32>
    ensures { result ≡ words_to_of end }
{
    if end < 0 {
        None
    } else if end > MOST_END {
        None
    } else {
        Some(end as u32 + 1)
    }
}

fn words_between(first: i64, last: i64) -> Option<u32>
    ensures { result ≡ words_between_of first last }
{
    if first == 0 {
        words_to(last)
    } else if last == 0 {
        words_to(first)
    } else {
        None
    }
}

fn memory_words(first: Number, last: Number) -> Option<u32>
    ensures { result ≡ memory_words_of first last }
{
    match first {
        Number::Known(f) => match last {
            Number::Known(l) => words_between(f, l),
            Number::Open => None,
            Number::NotConstant => None,
        },
        Number::Open => None,
        Number::NotConstant => None,
    }
}

fn with_words(shape: Option<Shape>, words: Option<u32>) -> Option<Shape>
    requires { IfSome shape IsShape }
    ensures value { result ≡ with_words_of shape words }
    ensures some { IfSome result IsShape }
{
    match shape {
        None => None,
        Some(s) => match words {
            None => None,
            Some(words) => Some(Shape {
                bits: s.bits,
                low: s.low,
                words,
            }),
        },
    }
}

fn end_of(alloc: Global, names: &Names, e: &Expr) -> Result<Number, AllocError>
    ensures { IfOk result (λ n. n ≡ end_of_of names.now e.now) }
{
    let s = constant_of(alloc, names, &[], e)?;
    Ok(number_of(s))
}

/// The shape of a vector; None where an offence leaves it open.
pub fn range_shape(alloc: Global, names: &Names, r: &Range) -> Result<Option<Shape>, AllocError>
    ensures value { IfOk result (λ s. s ≡ range_shape_of names.now r.now) }
    ensures some { IfOk result (λ s. IfSome s IsShape) }
{
    let high = end_of(alloc, names, &r.high)?;
    let low = end_of(alloc, names, &r.low)?;
    Ok(vector_shape(high, low))
}

/// The shape of what has a range or none; a scalar has the range `[0:0]`.
pub fn shape_of(
    alloc: Global,
    names: &Names,
    r: &Option<Range>,
) -> Result<Option<Shape>, AllocError>
    ensures value { IfOk result (λ s. s ≡ shape_of_of names.now r.now) }
    ensures some { IfOk result (λ s. IfSome s IsShape) }
{
    match r {
        None => Ok(Some(Shape {
            bits: 1,
            low: 0,
            words: 0,
        })),
        Some(r) => range_shape(alloc, names, r),
    }
}

/// The shape of a memory whose words have this shape, with the range of its words (4.9); None where an offence leaves one of
/// the two open.
pub fn memory_shape(
    alloc: Global,
    names: &Names,
    word: Option<Shape>,
    r: &Range,
) -> Result<Option<Shape>, AllocError>
    requires { IfSome word IsShape }
    ensures value { IfOk result (λ s. s ≡ memory_shape_of names.now word r.now) }
    ensures some { IfOk result (λ s. IfSome s IsShape) }
{
    let first = end_of(alloc, names, &r.high)?;
    let last = end_of(alloc, names, &r.low)?;
    Ok(with_words(word, memory_words(first, last)))
}
