//! The values that a loop's variable takes, one for each turn (IEEE 1364-2005, 9.6).

ghost use Rattle.std.specs.Prelude.{◌≡◌, IfOk};
ghost use Rattle.elab_names.specs.Constants.{IsContext};
ghost use Rattle.elab_loops.specs.Loops.{cut_to_variable as cut_to_variable_of, variable_context as variable_context_of, stored as stored_of, assigned as assigned_of, with_turn as with_turn_of, is_true_worth as is_true_worth_of, head_holds, or_nought as or_nought_of, head_next, loop_values as loop_values_of, values_of as values_of_of, is_long as is_long_of, turns_of as turns_of_of, taken_turns as taken_turns_of, integer_number as integer_number_of};

use bits_core::Word;
use elab_names::constant::{Worth, context_of, is_true};
use elab_names::context::Context;
use elab_names::measure::{
    Measured, constant_of, greater, length_of, measure, signed_of, worth_in,
};
use elab_names::names::{Entry, Turn};
use elab_names::scope::Names;
use sqlite_items::Items;
use std::alloc::{AllocError, Global};
use v_tree::{Expr, ForHead};

/// The turns that a loop may take.
pub const MOST_TURNS: usize = 4096;

fn cut_to_variable(worth: Worth) -> Worth
    ensures { result ≡ cut_to_variable_of worth }
{
    match worth {
        Worth::Value(w) => Worth::Value(w.resize(32, false)),
        Worth::Open => Worth::Open,
        Worth::NotConstant => Worth::NotConstant,
    }
}

fn variable_context(m: &Measured) -> Option<Context>
    ensures value { result ≡ variable_context_of m.now }
    ensures proper { IsContext result }
{
    context_of(greater(Some(32), length_of(m)), signed_of(m))
}

fn stored(m: &Measured) -> Worth
    ensures { result ≡ stored_of m.now }
{
    let context = variable_context(m);
    cut_to_variable(worth_in(context, m))
}

/// What an assignment in a loop's head gives its variable.
pub fn assigned(alloc: Global, names: &Names, turns: &[Turn], e: &Expr) -> Result<Worth, AllocError>
    ensures { IfOk result (λ w. w ≡ assigned_of names.now turns.now e.now) }
{
    let m = measure(alloc, names, turns, e)?;
    Ok(stored(&m))
}

/// The loops round a part, and one more in which the variable has a value.
pub fn with_turn(
    alloc: Global,
    turns: &[Turn],
    integer: usize,
    value: Worth,
) -> Result<Items<Turn>, AllocError>
    ensures { IfOk result (λ t. t ≡ with_turn_of turns.now integer value) }
{
    let mut inside = Items::from_slice(alloc, turns)?;
    inside.push(Turn { integer, value })?;
    Ok(inside)
}

fn is_true_worth(worth: Worth) -> bool
    ensures { result ≡ is_true_worth_of worth }
{
    match worth {
        Worth::Value(w) => is_true(w),
        Worth::Open | Worth::NotConstant => false,
    }
}

fn holds(
    alloc: Global,
    names: &Names,
    turns: &[Turn],
    integer: usize,
    head: &ForHead,
    value: Word,
) -> Result<bool, AllocError>
    ensures { IfOk result (λ b. b ≡ head_holds names.now turns.now integer head.now value) }
{
    let inside = with_turn(alloc, turns, integer, Worth::Value(value))?;
    let condition = constant_of(alloc, names, inside.as_slice(), &head.condition)?;
    Ok(is_true_worth(condition.worth))
}

fn or_nought(worth: Worth) -> Word
    ensures { result ≡ or_nought_of worth }
{
    match worth {
        Worth::Value(w) => w,
        Worth::Open | Worth::NotConstant => Word::from_low_bits(32, 0),
    }
}

fn next_value(
    alloc: Global,
    names: &Names,
    turns: &[Turn],
    integer: usize,
    head: &ForHead,
    value: Word,
) -> Result<Word, AllocError>
    ensures { IfOk result (λ w. w ≡ head_next names.now turns.now integer head.now value) }
{
    let inside = with_turn(alloc, turns, integer, Worth::Value(value))?;
    let next = assigned(alloc, names, inside.as_slice(), &head.step.value)?;
    Ok(or_nought(next))
}

fn loop_values(
    alloc: Global,
    names: &Names,
    turns: &[Turn],
    integer: usize,
    head: &ForHead,
    most: usize,
    first: Word,
) -> Result<Items<Word>, AllocError>
    ensures { IfOk result (λ l. l ≡ loop_values_of (head_holds names.now turns.now integer head.now) (head_next names.now turns.now integer head.now) most first) }
{
    let mut values = Items::new(alloc);
    let mut value = first;
    for _turn in 0..most {
        if !holds(alloc, names, turns, integer, head, value)? {
            return Ok(values);
        }
        values.push(value)?;
        value = next_value(alloc, names, turns, integer, head, value)?;
    }
    Ok(values)
}

/// The values that a loop's variable takes, one for each turn; of a loop that is too long, one more than are allowed.
pub fn values_of(
    alloc: Global,
    names: &Names,
    turns: &[Turn],
    integer: usize,
    head: &ForHead,
) -> Result<Items<Word>, AllocError>
    ensures { IfOk result (λ l. l ≡ values_of_of names.now turns.now integer head.now) }
{
    match assigned(alloc, names, turns, &head.start.value)? {
        Worth::Value(first) => {
            let values = loop_values(alloc, names, turns, integer, head, MOST_TURNS + 1, first)?;
            Ok(values)
        }
        Worth::Open | Worth::NotConstant => Ok(Items::new(alloc)),
    }
}

/// Whether a loop takes more turns than are allowed.
pub fn is_long(values: &[Word]) -> bool
    ensures { result ≡ is_long_of values.now }
{
    values.len() > MOST_TURNS
}

/// The turns that are unrolled: none of a loop that is too long.
pub fn turns_of(alloc: Global, values: Items<Word>) -> Items<Word>
    ensures { result ≡ turns_of_of values }
{
    if is_long(values.as_slice()) {
        Items::new(alloc)
    } else {
        values
    }
}

/// The values of a loop's variable that are unrolled.
pub fn taken_turns(
    alloc: Global,
    names: &Names,
    turns: &[Turn],
    integer: usize,
    head: &ForHead,
) -> Result<Items<Word>, AllocError>
    ensures { IfOk result (λ l. l ≡ taken_turns_of names.now turns.now integer head.now) }
{
    let values = values_of(alloc, names, turns, integer, head)?;
    Ok(turns_of(alloc, values))
}

/// The number of the loop variable that a name stands for.
pub fn integer_number(entry: &Option<Entry>) -> usize
    ensures { result ≡ integer_number_of entry.now }
{
    match entry {
        Some(Entry::Integer(number)) => *number,
        _ => 0,
    }
}
