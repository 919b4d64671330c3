//! The rules on names, literals, ranges and constants, each with the place at which it is broken (IEEE 1364-2005, clauses 3
//! to 5).

ghost use Rattle.std.specs.Prelude.{◌≡◌};
ghost use Rattle.elab_offences.specs.Noted.{Notes};
ghost use Rattle.elab_offences.specs.Rules.{at_if as at_if_of, literal_fault, literal_offences, turn_fault, name_offences, is_index as is_index_of, memory_offences, memory_part_offences, word_range as word_range_of, parameter_range as parameter_range_of, range_of as range_of_of, is_below as is_below_of, is_outside as is_outside_of, part_offences, bits_offences, whole_offences, select_offences, varying_offences, is_out_of as is_out_of_of, size_offences, wrong_target as wrong_target_of, is_target as is_target_of, assigned_offences, whole_target_offences, part_target_offences};

use elab_names::constant::{Constant, Worth, literal_constant};
use elab_names::names::{Entry, ParameterEntry, Shape, SignalEntry, Sort, Turn};
use elab_names::scope::turn_of;
use elab_names::select::{Choice, Number, is_memory};
use offence_order::First;
use src_text::{Kind, Place};
use v_starts::literal_start;
use v_tree::Literal;

/// Notes an offence where there is one.
pub fn at_if(first: &mut First, broken: bool, place: Place, kind: Kind)
    ensures { Notes first.old first.new (at_if_of broken place kind) }
{
    if broken {
        first.note(place, kind);
    }
}

fn constant_literal(first: &mut First, place: Place, c: Option<Constant>)
    ensures { Notes first.old first.new (literal_fault place c) }
{
    match c {
        None => first.note(place, Kind::VLiteral),
        Some(_) => {}
    }
}

/// A literal.
pub fn literal(first: &mut First, l: &Literal)
    ensures { Notes first.old first.new (literal_offences l.now) }
{
    constant_literal(first, literal_start(l), literal_constant(l));
}

fn turn(first: &mut First, place: Place, t: Option<Turn>)
    ensures { Notes first.old first.new (turn_fault place t) }
{
    match t {
        None => first.note(place, Kind::VLoop),
        Some(_) => {}
    }
}

fn name(first: &mut First, turns: &[Turn], place: Place, entry: &Option<Entry>)
    ensures { Notes first.old first.new (name_offences turns.now place entry.now) }
{
    match entry {
        None | Some(Entry::Instance) => first.note(place, Kind::VUnknownName),
        Some(Entry::Integer(n)) => turn(first, place, turn_of(turns, *n)),
        Some(Entry::Parameter(_)) | Some(Entry::Signal(_)) => {}
    }
}

fn is_index(c: Choice) -> bool
    ensures { result ≡ is_index_of c }
{
    match c {
        Choice::Index(_) => true,
        Choice::Range(_, _) | Choice::Up(_, _) | Choice::Down(_, _) => false,
    }
}

fn memory(first: &mut First, place: Place, entry: &Option<Entry>)
    ensures { Notes first.old first.new (memory_offences place entry.now) }
{
    at_if(first, is_memory(entry), place, Kind::VMemory);
}

fn memory_part(first: &mut First, place: Place, entry: &Option<Entry>, c: Choice)
    ensures { Notes first.old first.new (memory_part_offences place entry.now c) }
{
    if !is_index(c) {
        memory(first, place, entry);
    }
}

fn word_range(s: SignalEntry) -> Option<Shape>
    ensures { result ≡ word_range_of s }
{
    if s.memory { None } else { s.shape }
}

fn parameter_range(p: Option<ParameterEntry>) -> Option<Shape>
    ensures { result ≡ parameter_range_of p }
{
    match p {
        None => None,
        Some(p) => Some(Shape {
            bits: p.constant.word.width(),
            low: p.low,
            words: 0,
        }),
    }
}

/// The range of a name in a part select.
fn range_of(entry: &Option<Entry>) -> Option<Shape>
    ensures { result ≡ range_of_of entry.now }
{
    match entry {
        None | Some(Entry::Instance) => None,
        Some(Entry::Parameter(p)) => parameter_range(*p),
        Some(Entry::Integer(_)) => Some(Shape {
            bits: 32,
            low: 0,
            words: 0,
        }),
        Some(Entry::Signal(s)) => word_range(*s),
    }
}

fn is_below(high: Number, low: Number) -> bool
    ensures { result ≡ is_below_of high low }
{
    match high {
        Number::Known(h) => match low {
            Number::Known(l) => h < l,
            Number::Open | Number::NotConstant => false,
        },
        Number::Open | Number::NotConstant => false,
    }
}

fn is_outside(range: Option<Shape>, n: Number) -> bool
    ensures { result ≡ is_outside_of range n }
{
    match range {
        None => false,
        Some(r) => match n {
            Number::Known(n) => {
                n < i64::from(r.low) || !(n < i64::from(r.low) + i64::from(r.bits))
            }
            Number::Open | Number::NotConstant => false,
        },
    }
}

fn part(first: &mut First, place: Place, range: Option<Shape>, c: Choice)
    ensures { Notes first.old first.new (part_offences place range c) }
{
    match c {
        Choice::Range(h, l) => {
            let broken = is_below(h, l) || (is_outside(range, h) || is_outside(range, l));
            at_if(first, broken, place, Kind::VRange);
        }
        Choice::Index(_) | Choice::Up(_, _) | Choice::Down(_, _) => {}
    }
}

fn bits(first: &mut First, place: Place, entry: &Option<Entry>, c: Choice)
    ensures { Notes first.old first.new (bits_offences place entry.now c) }
{
    memory_part(first, place, entry, c);
    part(first, place, range_of(entry), c);
}

/// A name that is read whole.
pub fn whole(first: &mut First, turns: &[Turn], place: Place, entry: &Option<Entry>)
    ensures { Notes first.old first.new (whole_offences turns.now place entry.now) }
{
    name(first, turns, place, entry);
    memory(first, place, entry);
}

/// A name that is read by a select.
pub fn select(first: &mut First, turns: &[Turn], place: Place, entry: &Option<Entry>, c: Choice)
    ensures { Notes first.old first.new (select_offences turns.now place entry.now c) }
{
    name(first, turns, place, entry);
    bits(first, place, entry, c);
}

/// What must be constant.
pub fn varying(first: &mut First, place: Place, worth: Worth)
    ensures { Notes first.old first.new (varying_offences place worth) }
{
    match worth {
        Worth::NotConstant => first.note(place, Kind::VConstant),
        Worth::Value(_) | Worth::Open => {}
    }
}

/// Whether a number isn't from 1 to a greatest one.
pub fn is_out_of(most: u8, n: Number) -> bool
    ensures { result ≡ is_out_of_of most n }
{
    match n {
        Number::Known(n) => n < 1 || n > i64::from(most),
        Number::Open | Number::NotConstant => false,
    }
}

/// A literal that is an element of a concatenation.
pub fn size(first: &mut First, l: &Literal)
    ensures { Notes first.old first.new (size_offences l.now) }
{
    match l {
        Literal::Decimal(d) => first.note(d.place, Kind::VUnsized),
        Literal::Based(b) => first.note(b.place, Kind::VUnsized),
        Literal::Sized(_, _) => {}
    }
}

fn wrong_target(register: bool) -> Kind
    ensures { result ≡ wrong_target_of register }
{
    if register {
        Kind::VNotRegister
    } else {
        Kind::VNotNet
    }
}

fn is_target(register: bool, sort: Sort) -> bool
    ensures { result ≡ is_target_of register sort }
{
    match sort {
        Sort::Reg => register,
        Sort::Net => !register,
        Sort::Input => false,
    }
}

fn assigned(first: &mut First, register: bool, place: Place, entry: &Option<Entry>)
    ensures { Notes first.old first.new (assigned_offences register place entry.now) }
{
    match entry {
        None | Some(Entry::Instance) => first.note(place, Kind::VUnknownName),
        Some(Entry::Parameter(_)) => first.note(place, wrong_target(register)),
        Some(Entry::Integer(_)) => {
            first.note(place, wrong_target(register));
            first.note(place, Kind::VLoop);
        }
        Some(Entry::Signal(s)) => {
            let wrong = !is_target(register, s.sort);
            at_if(first, wrong, place, wrong_target(register));
        }
    }
}

/// A name that is assigned whole.
pub fn whole_target(first: &mut First, register: bool, place: Place, entry: &Option<Entry>)
    ensures { Notes first.old first.new (whole_target_offences register place entry.now) }
{
    assigned(first, register, place, entry);
    memory(first, place, entry);
}

/// A name that is assigned by a select.
pub fn part_target(
    first: &mut First,
    register: bool,
    place: Place,
    entry: &Option<Entry>,
    c: Choice,
)
    ensures { Notes first.old first.new (part_target_offences register place entry.now c) }
{
    assigned(first, register, place, entry);
    bits(first, place, entry, c);
}
