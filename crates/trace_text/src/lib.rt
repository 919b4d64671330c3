//! The text that shows a run that breaks a property: a line for each event, and one for each word that an event shows.
//!
//! It is a function of the pair and the events alone. How a run comes about, and what found it, nothing here knows.
#![tactic(auto)]

ghost use Rattle.std.specs.Prelude.{◌≡◌, ◌<◌, ◌≤◌, ◌%◌, ◌^◌, ◌++◌, OnOk, IfOk, All, Some, slice_get, string_bytes, codes, decimal};
ghost use Rattle.std.specs.List.{flat_map};
ghost use Rattle.std.specs.Option.{option_copied};
ghost use Rattle.std.specs.Fmt.{signed_decimal};
ghost use Rattle.joint_ir.specs.WellFormed.{FitsSignal};
ghost use Rattle.trace_text.specs.Trace.{kind_text, prop_text, prop_line, shown_number as number_of_word, index_text, word_index as index_of_word, signal_text, shown_text, var_name as name_of_var, member_name as name_of_member, slot_name as name_of_slot, stored_text, broke_text, driven_text, event_text, broken_prop as prop_of, trace_text};
ghost use Rattle.trace_text.specs.WorkedTraces.{WorkedTraces};

use bits_core::Word;
use joint_ir::{Event, EventList, Member, Pair, Prop, PropId, PropKind, Shown, Signal, Slot, Var};
use std::alloc::{AllocError, Global};

/// The middle part of the name of a property.
fn kind_name(kind: PropKind) -> &'static str
    ensures { result.now ≡ kind_text kind }
{
    match kind {
        PropKind::Assertion => "assertion",
        PropKind::Overflow => "overflow",
        PropKind::Division => "division",
        PropKind::Shift => "shift",
        PropKind::Bounds => "bounds",
        PropKind::Unwind => "unwind",
        PropKind::Recursion => "recursion",
        PropKind::Frame => "frame",
    }
}

/// Puts the name of a property at the end.
fn push_prop(text: &mut String, prop: Option<&Prop>) -> Result<(), AllocError>
    ensures { OnOk result (string_bytes text.new ≡ string_bytes text.old ++ prop_text (option_copied prop.entry)) }
{
    match prop {
        None => Ok(()),
        Some(prop) => {
            let function = prop.function.text();
            let kind = kind_name(prop.kind);
            let number = prop.number;
            write!(text, "{function}.{kind}.{number}")
        }
    }
}

/// A word of a signal as a number.
fn shown_number(signal: &Signal, value: u64) -> i128
    requires some { 0 < signal.now.bits }
    requires few { signal.now.bits ≤ 64 }
    ensures { result ≡ number_of_word signal.now value }
{
    let word = Word::from_low_bits(signal.bits, value as u128);
    if signal.signed {
        word.to_signed()
    } else {
        word.value() as i128
    }
}

/// Puts an index at the end.
fn push_index(text: &mut String, index: Option<u32>) -> Result<(), AllocError>
    ensures { OnOk result (string_bytes text.new ≡ string_bytes text.old ++ index_text index) }
{
    match index {
        None => Ok(()),
        Some(i) => write!(text, "[{i}]"),
    }
}

/// The index that the word of a signal is shown with: one of a memory has one.
fn word_index(words: u32, word: u32) -> Option<u32>
    ensures { result ≡ index_of_word words word }
{
    if words == 0 { None } else { Some(word) }
}

/// Puts the line of a word of a signal at the end.
fn push_signal(text: &mut String, signal: &Signal, word: u32, value: u64) -> Result<(), AllocError>
    requires some { 0 < signal.now.bits }
    requires few { signal.now.bits ≤ 64 }
    ensures { OnOk result (string_bytes text.new ≡ string_bytes text.old ++ signal_text (Some signal.now) word value) }
{
    let path = signal.path.text();
    write!(text, "  {path}")?;
    push_index(text, word_index(signal.words, word))?;
    let number = shown_number(signal, value);
    write!(text, " = {number}\n")
}

/// Puts the line of a word that is shown at the end.
fn push_shown(text: &mut String, pair: &Pair, shown: Shown) -> Result<(), AllocError>
    requires { All FitsSignal pair.now.module.signals }
    ensures { OnOk result (string_bytes text.new ≡ string_bytes text.old ++ shown_text pair.now shown) }
{
    match pair.module.signals.get(shown.signal as usize) {
        None => Ok(()),
        Some(signal) => push_signal(text, signal, shown.word, shown.value),
    }
}

/// Puts the lines of the words that are shown at the end.
fn push_all_shown(text: &mut String, pair: &Pair, shown: &[Shown]) -> Result<(), AllocError>
    requires { All FitsSignal pair.now.module.signals }
    ensures { OnOk result (string_bytes text.new ≡ string_bytes text.old ++ flat_map (shown_text pair.now) shown.now) }
{
    for x in shown {
        push_shown(text, pair, *x)?;
    }
    Ok(())
}

/// The name of an object of C.
fn var_name(var: Option<&Var>) -> &str
    ensures { result.now ≡ name_of_var (option_copied var.entry) }
{
    match var {
        None => "",
        Some(var) => var.name.text(),
    }
}

/// The dotted path of a member of the mirror.
fn member_name(member: Option<&Member>) -> &str
    ensures { result.now ≡ name_of_member (option_copied member.entry) }
{
    match member {
        None => "",
        Some(member) => member.path.text(),
    }
}

/// The name of what a store goes to.
fn slot_name(pair: &Pair, slot: Slot) -> &str
    ensures { result.now ≡ name_of_slot pair.now slot }
{
    match slot {
        Slot::Global(i) => var_name(pair.program.globals.get(i as usize)),
        Slot::Local(i) => var_name(pair.program.locals.get(i as usize)),
        Slot::Member(i) => match &pair.program.mirror {
            None => "",
            Some(mirror) => member_name(mirror.members.get(i as usize)),
        },
        Slot::BoundValue => "bound",
    }
}

/// Puts the line of a store at the end.
fn push_stored(
    text: &mut String,
    pair: &Pair,
    line: u32,
    slot: Slot,
    index: Option<u32>,
    value: i128,
) -> Result<(), AllocError>
    ensures { OnOk result (string_bytes text.new ≡ string_bytes text.old ++ stored_text pair.now line slot index value) }
{
    let name = slot_name(pair, slot);
    write!(text, "line {line}: {name}")?;
    push_index(text, index)?;
    write!(text, " = {value}\n")
}

/// The line that a property stands at.
fn line_of(prop: Option<&Prop>) -> u32
    ensures { result ≡ prop_line (option_copied prop.entry) }
{
    match prop {
        None => 0,
        Some(prop) => prop.line,
    }
}

/// Puts the line of a break at the end.
fn push_broke(text: &mut String, pair: &Pair, prop: PropId) -> Result<(), AllocError>
    ensures { OnOk result (string_bytes text.new ≡ string_bytes text.old ++ broke_text pair.now prop) }
{
    text.push_str("broken ")?;
    push_prop(text, pair.program.props.get(prop.0 as usize))?;
    let line = line_of(pair.program.props.get(prop.0 as usize));
    write!(text, " at line {line}\n")
}

/// Puts the lines of a drive at the end.
fn push_driven(text: &mut String, pair: &Pair, shown: &[Shown]) -> Result<(), AllocError>
    requires { All FitsSignal pair.now.module.signals }
    ensures { OnOk result (string_bytes text.new ≡ string_bytes text.old ++ driven_text pair.now shown.now) }
{
    text.push_str("inputs driven\n")?;
    push_all_shown(text, pair, shown)
}

/// Puts the lines of an event at the end.
fn push_event(text: &mut String, pair: &Pair, event: &Event) -> Result<(), AllocError>
    requires { All FitsSignal pair.now.module.signals }
    ensures { OnOk result (string_bytes text.new ≡ string_bytes text.old ++ event_text pair.now event.now) }
{
    match event {
        Event::Frame(number, shown) => {
            write!(text, "frame {number}\n")?;
            push_all_shown(text, pair, shown.as_slice())
        }
        Event::Driven(shown) => push_driven(text, pair, shown.as_slice()),
        Event::Stored(line, slot, index, value) => {
            push_stored(text, pair, *line, *slot, *index, *value)
        }
        Event::Broke(prop) => push_broke(text, pair, *prop),
    }
}

/// The property that breaks.
fn broken_prop(events: &[Event]) -> PropId
    ensures { result ≡ prop_of events.now }
{
    for event in events {
        if let Event::Broke(prop) = event {
            return *prop;
        }
    }
    PropId(0)
}

/// Puts the lines of events at the end.
fn push_events(text: &mut String, pair: &Pair, events: &[Event]) -> Result<(), AllocError>
    requires { All FitsSignal pair.now.module.signals }
    ensures { OnOk result (string_bytes text.new ≡ string_bytes text.old ++ flat_map (event_text pair.now) events.now) }
{
    for event in events {
        push_event(text, pair, event)?;
    }
    Ok(())
}

/// Puts the first line at the end.
fn push_head(text: &mut String, pair: &Pair, prop: PropId) -> Result<(), AllocError>
    ensures { OnOk result (string_bytes text.new ≡ string_bytes text.old ++ (codes "Trace for " ++ (prop_text (slice_get pair.now.program.props prop.0) ++ codes ":\n"))) }
{
    write!(text, "Trace for ")?;
    push_prop(text, pair.program.props.get(prop.0 as usize))?;
    write!(text, ":\n")
}

/// The trace of a run that breaks a property, by its events. Values are decimal, with a sign where the signal or the type
/// has one. Want of memory is the only error.
pub fn trace(alloc: Global, pair: &Pair, events: &EventList) -> Result<String, AllocError>
    requires { All FitsSignal pair.now.module.signals }
    ensures { IfOk result (λ text. string_bytes text ≡ trace_text pair.now events.now) }
{
    let mut text = String::new(alloc);
    push_head(&mut text, pair, broken_prop(events.as_slice()))?;
    push_events(&mut text, pair, events.as_slice())?;
    write!(text, "VERIFICATION FAILED\n")?;
    Ok(text)
}

/// The traces of small runs are the texts that were written by hand. The contract is the law.
pub fn worked_traces()
    ensures { WorkedTraces }
{}
