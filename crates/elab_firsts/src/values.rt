//! What an assignment to a register stores (IEEE 1364-2005, 5.4.1 and 9.2.1).

ghost use Rattle.std.specs.Prelude.{◌≡◌, ◌<◌, ◌≤◌, ◌%◌, ◌^◌, IfOk};
ghost use Rattle.elab_names.specs.Constants.{IsContext};
ghost use Rattle.elab_firsts.specs.Values.{register_bits as register_bits_of, low_value as low_value_of, assigned_context as assigned_context_of, stored as stored_of, shape_write as shape_write_of, entry_write as entry_write_of, write_of as write_of_of};

use bits_core::Word;
use elab_names::constant::{Worth, context_of};
use elab_names::context::Context;
use elab_names::measure::{Measured, greater, length_of, measure, signed_of, worth_in};
use elab_names::names::{Entry, Shape, Turn};
use elab_names::scope::Names;
use sqlite_items::Items;
use std::alloc::{AllocError, Global};
use v_tree::Expr;

/// A first value: of which signal, and of which word of it; word 0 of what is no memory.
#[derive(Clone, Copy, Debug, PartialEq, Eq)]
pub struct FirstWrite {
    pub signal: u32,
    pub word: u32,
    pub value: u64,
}

fn register_bits(bits: u8) -> u8
    ensures value { result ≡ register_bits_of bits }
    ensures some { 0 < result }
    ensures within { result ≤ 64 }
{
    bits.min(64).max(1)
}

fn low_bits(bits: u8, w: Word) -> u64
    ensures { result ≡ w.value % 2 ^ register_bits_of bits }
{
    Word::from_low_bits(register_bits(bits), w.value()).value() as u64
}

fn low_value(bits: u8, worth: Worth) -> u64
    ensures { result ≡ low_value_of bits worth }
{
    match worth {
        Worth::Value(w) => low_bits(bits, w),
        Worth::Open | Worth::NotConstant => 0,
    }
}

fn assigned_context(bits: u8, m: &Measured) -> Option<Context>
    ensures value { result ≡ assigned_context_of bits m.now }
    ensures proper { IsContext result }
{
    context_of(greater(Some(bits), length_of(m)), signed_of(m))
}

fn stored(bits: u8, m: &Measured) -> u64
    ensures { result ≡ stored_of bits m.now }
{
    let context = assigned_context(bits, m);
    low_value(bits, worth_in(context, m))
}

fn shape_write(
    alloc: Global,
    signal: u32,
    shape: Option<Shape>,
    word: u32,
    m: &Measured,
) -> Result<Items<FirstWrite>, AllocError>
    ensures { IfOk result (λ l. l ≡ shape_write_of signal shape word m.now) }
{
    let mut writes = Items::new(alloc);
    match shape {
        None => Ok(writes),
        Some(shape) => {
            let value = stored(shape.bits, m);
            writes.push(FirstWrite {
                signal,
                word,
                value,
            })?;
            Ok(writes)
        }
    }
}

fn entry_write(
    alloc: Global,
    entry: &Option<Entry>,
    word: u32,
    m: &Measured,
) -> Result<Items<FirstWrite>, AllocError>
    ensures { IfOk result (λ l. l ≡ entry_write_of entry.now word m.now) }
{
    match entry {
        Some(Entry::Signal(s)) => {
            let writes = shape_write(alloc, s.number, s.shape, word, m)?;
            Ok(writes)
        }
        _ => Ok(Items::new(alloc)),
    }
}

/// What an assignment writes to a word of the signal that a name stands for.
pub fn write_of(
    alloc: Global,
    names: &Names,
    turns: &[Turn],
    entry: &Option<Entry>,
    word: u32,
    e: &Expr,
) -> Result<Items<FirstWrite>, AllocError>
    ensures { IfOk result (λ l. l ≡ write_of_of names.now turns.now entry.now word e.now) }
{
    let m = measure(alloc, names, turns, e)?;
    let writes = entry_write(alloc, entry, word, &m)?;
    Ok(writes)
}
