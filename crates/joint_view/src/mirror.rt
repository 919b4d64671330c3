//! What the mirror shows of a module, and how it drives the inputs.

ghost use Rattle.std.specs.Prelude.{◌≡◌, ℕ, ◌<◌, ◌≤◌, ◌^◌, ◌+◌, List, [], ◌∷◌, ◌++◌, Some, length, map, take, drop, All, IfOk, OnOk, slice_get, slice_index, slice_index_or};
ghost use Rattle.std.specs.Option.{option_copied};
ghost use Rattle.joint_ir.specs.States.{row_at};
ghost use Rattle.joint_ir.specs.Values.{first_of};
ghost use Rattle.joint_ir.specs.Views.{widths_of, view_words, mirrored_signal as signal_of, mirroring_member as member_of, mirror_row as mirror_row_of, member_row as member_row_of, filled as filled_of, filled_from, same_role, driven_input as driven_input_of, driven as driven_of};
ghost use Rattle.joint_ir.specs.WellFormed.{IsWellFormed, FitsModule, FitsSignal, FitsMember};
ghost use Rattle.joint_ir.specs.Types.{IsType};
ghost use Rattle.joint_ir.specs.declared.module.Role.TheVariants.{Input as input};
ghost use Rattle.joint_ir.specs.declared.module.Signal.{Signal as Signals};
ghost use Rattle.joint_view.specs.Conditions.{AreWords, IsView, FitSignals};
ghost use Rattle.joint_view.specs.Moves.{row_items};

use crate::view::{Numbers, View};
use crate::{Rows, choices, words};
use joint_ir::{FlatModule, IntType, Link, Member, Pair, Role, Signal};
use sqlite_items::Items;
use std::alloc::{AllocError, Global};

/// The words of each signal.
pub type SignalWords = Items<Numbers>;

/// The first n numbers, or all of fewer.
fn first(numbers: &[u64], n: u32) -> &[u64]
    ensures { result.now ≡ take n numbers.now }
{
    if (n as usize) < numbers.len() {
        &numbers[..n as usize]
    } else {
        numbers
    }
}

/// The numbers behind the first n.
fn rest(numbers: &[u64], n: u32) -> &[u64]
    ensures { result.now ≡ drop n numbers.now }
{
    if (n as usize) < numbers.len() {
        &numbers[n as usize..]
    } else {
        &numbers[numbers.len()..]
    }
}

fn push_row(alloc: Global, rows: &mut SignalWords, numbers: &[u64]) -> Result<(), AllocError>
    ensures { OnOk result (rows.new ≡ rows.old ++ numbers.now ∷ []) }
{
    rows.push(Numbers::from_slice(alloc, numbers)?)
}

/// The words of each signal, in flat order; the clock's is 0.
pub fn signal_words(
    alloc: Global,
    flat: &FlatModule,
    view: &View,
) -> Result<SignalWords, AllocError>
    ensures words { IfOk result (λ words. words ≡ view_words flat.now view.now) }
    ensures few { IfOk result (λ words. All (λ (row : List ℕ). length row < 2 ^ 32) words) }
{
    let mut rows = SignalWords::new(alloc);
    let mut registers = view.registers();
    let mut inputs = view.inputs();
    let mut wires = view.wires();
    for signal in flat.signals.as_slice() {
        match signal.role {
            Role::Clock => push_row(alloc, &mut rows, &[0])?,
            Role::Input => {
                push_row(alloc, &mut rows, first(inputs, 1))?;
                inputs = rest(inputs, 1);
            }
            Role::Wire => {
                push_row(alloc, &mut rows, first(wires, 1))?;
                wires = rest(wires, 1);
            }
            Role::Register => {
                let count = choices::word_count(signal);
                push_row(alloc, &mut rows, first(registers, count))?;
                registers = rest(registers, count);
            }
        }
    }
    Ok(rows)
}

/// The signal that a member mirrors.
fn mirrored_signal(links: &[Link], member: u32) -> Option<u32>
    ensures { result ≡ signal_of links.now member }
{
    for link in links {
        if link.member == member {
            return Some(link.signal);
        }
    }
    None
}

/// The member that mirrors a signal.
fn mirroring_member(links: &[Link], signal: u32) -> Option<u32>
    ensures { result ≡ member_of links.now signal }
{
    for link in links {
        if link.signal == signal {
            return Some(link.member);
        }
    }
    None
}

/// The elements of an integer member: the numbers of its signal's words, converted to its type.
fn mirror_row(
    alloc: Global,
    ty: IntType,
    signal: &Signal,
    numbers: &[u64],
) -> Result<Vec<i128>, AllocError>
    requires ty { IsType ty }
    requires signal { FitsSignal signal.now }
    requires numbers { All (λ n. n < 2 ^ signal.now.bits) numbers.now }
    ensures { IfOk result (λ row. row.items ≡ mirror_row_of ty (Some signal.now) numbers.now) }
{
    let mut row = Vec::new(alloc);
    for n in numbers {
        row.push(words::converted(ty, words::number(signal, *n)))?;
    }
    Ok(row)
}

/// The words of a signal; none where it isn't there.
pub fn words_at(words: &[Numbers], signal: u32) -> &[u64]
    ensures { result.now ≡ slice_index_or words.now signal [] }
{
    match words.get(signal as usize) {
        None => &[],
        Some(numbers) => numbers.as_slice(),
    }
}

/// The elements of a member that mirrors a signal; none of a struct.
fn member_row(
    alloc: Global,
    signals: &[Signal],
    words: &[Numbers],
    member: &Member,
    signal: Option<u32>,
) -> Result<Vec<i128>, AllocError>
    requires member { FitsMember member.now }
    requires signals { All FitsSignal signals.now }
    requires words { FitSignals signals.now words.now }
    ensures { IfOk result (λ row. row.items ≡ member_row_of signals.now words.now member.now.ty signal) }
{
    match (member.ty, signal) {
        (Some(ty), Some(g)) => match signals.get(g as usize) {
            None => Ok(Vec::new(alloc)),
            Some(signal) => mirror_row(alloc, ty, signal, words_at(words, g)),
        },
        _ => Ok(Vec::new(alloc)),
    }
}

fn member_rows(
    alloc: Global,
    pair: &Pair,
    words: &[Numbers],
    members: &[Member],
) -> Result<Rows, AllocError>
    requires members { All FitsMember members.now }
    requires few { length members.now < 2 ^ 32 }
    requires signals { All FitsSignal pair.now.module.signals }
    requires words { FitSignals pair.now.module.signals words.now }
    ensures { IfOk result (λ rows. row_items rows.items ≡ filled_from pair.now.binding.links pair.now.module.signals words.now 0 members.now) }
{
    let mut rows = Rows::new(alloc);
    for (k, member) in members.iter().enumerate() {
        let signal = mirrored_signal(pair.binding.links.as_slice(), k as u32);
        let row = member_row(alloc, pair.module.signals.as_slice(), words, member, signal)?;
        rows.push(row)?;
    }
    Ok(rows)
}

/// The whole mirror, filled from a view.
pub fn filled(alloc: Global, pair: &Pair, view: &View) -> Result<Rows, AllocError>
    requires fits { IsWellFormed pair.now }
    requires view { IsView pair.now.module view.now }
    ensures { IfOk result (λ rows. row_items rows.items ≡ filled_of pair.now view.now) }
{
    let words = signal_words(alloc, &pair.module, view)?;
    match &pair.program.mirror {
        None => Ok(Rows::new(alloc)),
        Some(mirror) => member_rows(alloc, pair, words.as_slice(), mirror.members.as_slice()),
    }
}

/// The first element of an object; 0 where there is none.
fn first_element(rows: &[Vec<i128>], object: u32) -> i128
    ensures { result ≡ first_of (row_at (row_items rows.now) object) }
{
    match rows.get(object as usize) {
        None => 0,
        Some(row) => match row.first() {
            None => 0,
            Some(n) => *n,
        },
    }
}

/// An input: the low bits of the member that mirrors it, if there is one.
fn driven_input(signal: &Signal, member: Option<u32>, members: &[Vec<i128>], old: u64) -> u64
    requires signal { FitsSignal signal.now }
    requires old { old < 2 ^ signal.now.bits }
    ensures value { result ≡ driven_input_of signal.now member (row_items members.now) old }
    ensures below { result < 2 ^ signal.now.bits }
{
    match member {
        None => old,
        Some(m) => words::low_bits(signal.bits, first_element(members, m)),
    }
}

fn is_input(role: Role) -> bool
    ensures { result ≡ same_role input role }
{
    match role {
        Role::Input => true,
        _ => false,
    }
}

/// The inputs as the mirror drives them.
pub fn driven(
    alloc: Global,
    pair: &Pair,
    members: &[Vec<i128>],
    inputs: &[u64],
) -> Result<Numbers, AllocError>
    requires fits { FitsModule pair.now.module }
    requires inputs { AreWords (widths_of input pair.now.module.signals) inputs.now }
    ensures value { IfOk result (λ ns. ns ≡ driven_of pair.now (row_items members.now) inputs.now) }
    ensures words { IfOk result (λ ns. AreWords (widths_of input pair.now.module.signals) ns) }
{
    let mut numbers = Numbers::new(alloc);
    for (k, signal) in pair.module.signals.as_slice().iter().enumerate() {
        if is_input(signal.role) {
            let member = mirroring_member(pair.binding.links.as_slice(), k as u32);
            let old = inputs[numbers.len()];
            numbers.push(driven_input(signal, member, members, old))?;
        }
    }
    Ok(numbers)
}
