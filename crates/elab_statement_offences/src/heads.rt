//! Heads of loops (IEEE 1364-2005, 9.6).

ghost use Rattle.std.specs.Prelude.{◌≡◌, flat_map, length, eqb, IfOk, OnOk};
ghost use Rattle.elab_names.specs.declared.constant.Worth.TheVariants.{Value};
ghost use Rattle.elab_loops.specs.Loops.{with_turn as with_turn_of, assigned as assigned_of};
ghost use Rattle.elab_offences.specs.Noted.{Notes};
ghost use Rattle.elab_statement_offences.specs.Heads.{integer_in as integer_in_of, wrong_variable as wrong_variable_of, nested_offences, two_names as two_names_of, turn_worth as turn_worth_of, live_values as live_values_of, condition_offences, step_offences, turn_offences, idle_offences, turns_offences, start_offences, running_offences, head_offences, other_offences};

use bits_core::Word;
use elab_loops::loops::assigned;
use elab_loops::{values_of, with_turn};
use elab_names::constant::Worth;
use elab_names::names::{Entry, Turn};
use elab_names::scope::{Names, turn_of};
use elab_offences::constant_expression;
use elab_offences::rules::at_if;
use offence_order::First;
use sqlite_items::Items;
use src_text::{Kind, Place};
use std::alloc::{AllocError, Global};
use v_tree::{ForHead, Identifier};

/// The loop variable that a name is.
pub fn integer_in(entry: &Option<Entry>) -> Option<usize>
    ensures { result ≡ integer_in_of entry.now }
{
    match entry {
        Some(Entry::Integer(n)) => Some(*n),
        _ => None,
    }
}

fn wrong_variable(first: &mut First, place: Place, entry: &Option<Entry>)
    ensures { Notes first.old first.new (wrong_variable_of place entry.now) }
{
    match entry {
        None => first.note(place, Kind::VUnknownName),
        Some(_) => first.note(place, Kind::VLoop),
    }
}

fn nested(first: &mut First, place: Place, t: Option<Turn>)
    ensures { Notes first.old first.new (nested_offences place t) }
{
    match t {
        None => {}
        Some(_) => first.note(place, Kind::VLoop),
    }
}

fn two_names(first: &mut First, a: &Identifier, b: &Identifier)
    ensures { Notes first.old first.new (two_names_of a.now b.now) }
{
    if a.name.text() != b.name.text() {
        first.note(a.place, Kind::VLoop);
    }
}

fn turn_worth(w: Worth) -> Worth
    ensures { result ≡ turn_worth_of w }
{
    match w {
        Worth::Value(v) => Worth::Value(v),
        Worth::Open | Worth::NotConstant => Worth::Open,
    }
}

/// The values that a loop's variable takes; none in what is never run.
pub fn live_values(
    alloc: Global,
    names: &Names,
    live: bool,
    turns: &[Turn],
    n: usize,
    head: &ForHead,
) -> Result<Items<Word>, AllocError>
    ensures { IfOk result (λ l. l ≡ live_values_of names.now live turns.now n head.now) }
{
    if live {
        let values = values_of(alloc, names, turns, n, head)?;
        Ok(values)
    } else {
        Ok(Items::new(alloc))
    }
}

/// Whether there is no turn.
pub fn is_idle(taken: &[Word]) -> bool
    ensures { result ≡ eqb (length taken.now) 0 }
{
    taken.len() == 0
}

fn condition(
    alloc: Global,
    first: &mut First,
    names: &Names,
    turns: &[Turn],
    n: usize,
    head: &ForHead,
    w: Worth,
) -> Result<(), AllocError>
    ensures { OnOk result (Notes first.old first.new (condition_offences names.now turns.now n head.now w)) }
{
    let inside = with_turn(alloc, turns, n, turn_worth(w))?;
    constant_expression(alloc, first, names, inside.as_slice(), &head.condition)?;
    Ok(())
}

fn step(
    alloc: Global,
    first: &mut First,
    names: &Names,
    turns: &[Turn],
    n: usize,
    head: &ForHead,
    w: Worth,
) -> Result<(), AllocError>
    ensures { OnOk result (Notes first.old first.new (step_offences names.now turns.now n head.now w)) }
{
    let inside = with_turn(alloc, turns, n, w)?;
    constant_expression(alloc, first, names, inside.as_slice(), &head.step.value)?;
    Ok(())
}

fn next_worth(
    alloc: Global,
    names: &Names,
    turns: &[Turn],
    n: usize,
    head: &ForHead,
    v: Word,
) -> Result<Worth, AllocError>
    ensures { IfOk result (λ w. w ≡ assigned_of names.now (with_turn_of turns.now n (Value v)) head.now.step.value) }
{
    let inside = with_turn(alloc, turns, n, Worth::Value(v))?;
    let w = assigned(alloc, names, inside.as_slice(), &head.step.value)?;
    Ok(w)
}

fn turn(
    alloc: Global,
    first: &mut First,
    names: &Names,
    turns: &[Turn],
    n: usize,
    head: &ForHead,
    v: Word,
) -> Result<(), AllocError>
    ensures { OnOk result (Notes first.old first.new (turn_offences names.now turns.now n head.now v)) }
{
    let w = next_worth(alloc, names, turns, n, head, v)?;
    step(alloc, first, names, turns, n, head, Worth::Value(v))?;
    condition(alloc, first, names, turns, n, head, w)?;
    Ok(())
}

fn idle(
    alloc: Global,
    first: &mut First,
    names: &Names,
    turns: &[Turn],
    n: usize,
    head: &ForHead,
    none: bool,
) -> Result<(), AllocError>
    ensures { OnOk result (Notes first.old first.new (idle_offences names.now turns.now n head.now none)) }
{
    if none {
        step(alloc, first, names, turns, n, head, Worth::Open)?;
        Ok(())
    } else {
        Ok(())
    }
}

fn each_turn(
    alloc: Global,
    first: &mut First,
    names: &Names,
    turns: &[Turn],
    n: usize,
    head: &ForHead,
    taken: &[Word],
) -> Result<(), AllocError>
    ensures { OnOk result (Notes first.old first.new (flat_map (turn_offences names.now turns.now n head.now) taken.now)) }
{
    for v in taken {
        turn(alloc, first, names, turns, n, head, *v)?;
    }
    Ok(())
}

fn all_turns(
    alloc: Global,
    first: &mut First,
    names: &Names,
    turns: &[Turn],
    n: usize,
    head: &ForHead,
    taken: &[Word],
) -> Result<(), AllocError>
    ensures { OnOk result (Notes first.old first.new (turns_offences names.now turns.now n head.now taken.now)) }
{
    let none = is_idle(taken);
    idle(alloc, first, names, turns, n, head, none)?;
    each_turn(alloc, first, names, turns, n, head, taken)?;
    Ok(())
}

fn start(
    alloc: Global,
    first: &mut First,
    names: &Names,
    turns: &[Turn],
    place: Place,
    n: usize,
    head: &ForHead,
) -> Result<(), AllocError>
    ensures { OnOk result (Notes first.old first.new (start_offences names.now turns.now n head.now place)) }
{
    nested(first, place, turn_of(turns, n));
    two_names(first, &head.start.name, &head.step.name);
    constant_expression(alloc, first, names, turns, &head.start.value)?;
    Ok(())
}

fn first_condition(
    alloc: Global,
    first: &mut First,
    names: &Names,
    turns: &[Turn],
    n: usize,
    head: &ForHead,
) -> Result<(), AllocError>
    ensures { OnOk result (Notes first.old first.new (condition_offences names.now turns.now n head.now (assigned_of names.now turns.now head.now.start.value))) }
{
    let w = assigned(alloc, names, turns, &head.start.value)?;
    condition(alloc, first, names, turns, n, head, w)?;
    Ok(())
}

fn running(
    alloc: Global,
    first: &mut First,
    names: &Names,
    turns: &[Turn],
    n: usize,
    head: &ForHead,
    taken: &[Word],
) -> Result<(), AllocError>
    ensures { OnOk result (Notes first.old first.new (running_offences names.now turns.now n head.now taken.now)) }
{
    first_condition(alloc, first, names, turns, n, head)?;
    all_turns(alloc, first, names, turns, n, head, taken)?;
    Ok(())
}

/// What is wrong with the head of a loop, by whether it is too long, and by the turns that are unrolled.
pub fn loop_head(
    alloc: Global,
    first: &mut First,
    names: &Names,
    turns: &[Turn],
    place: Place,
    n: usize,
    head: &ForHead,
    long: bool,
    taken: &[Word],
) -> Result<(), AllocError>
    ensures { OnOk result (Notes first.old first.new (head_offences names.now turns.now n head.now place long taken.now)) }
{
    start(alloc, first, names, turns, place, n, head)?;
    running(alloc, first, names, turns, n, head, taken)?;
    at_if(first, long, place, Kind::VLoopLong);
    Ok(())
}

/// What is wrong with a head whose first name is no loop variable.
pub fn other(
    alloc: Global,
    first: &mut First,
    names: &Names,
    turns: &[Turn],
    head: &ForHead,
    entry: &Option<Entry>,
) -> Result<(), AllocError>
    ensures { OnOk result (Notes first.old first.new (other_offences names.now turns.now head.now entry.now)) }
{
    wrong_variable(first, head.start.name.place, entry);
    constant_expression(alloc, first, names, turns, &head.start.value)?;
    constant_expression(alloc, first, names, turns, &head.condition)?;
    constant_expression(alloc, first, names, turns, &head.step.value)?;
    Ok(())
}
