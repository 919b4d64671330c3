//! What is seen of a view.

ghost use Rattle.std.specs.Prelude.{◌≡◌, ℕ, ◌<◌, ◌≤◌, ◌^◌, List, ◌++◌, length, All, IfOk, OnOk};
ghost use Rattle.joint_ir.specs.Views.{shown as shown_of, shown_words, shown_from, same_role, changes as changes_of, changed as changed_of};
ghost use Rattle.joint_ir.specs.declared.module.Role.TheVariants.{Clock as clock};

use crate::mirror;
use crate::view::{Numbers, View};
use joint_ir::{FlatModule, Role, Shown, ShownList, Signal};
use std::alloc::{AllocError, Global};

/// Puts the words of a signal at the end of what is shown.
fn show(list: &mut ShownList, signal: u32, numbers: &[u64]) -> Result<(), AllocError>
    requires { length numbers.now < 2 ^ 32 }
    ensures { OnOk result (list.new ≡ list.old ++ shown_words signal 0 numbers.now) }
{
    for (i, n) in numbers.iter().enumerate() {
        list.push(Shown {
            signal,
            word: i as u32,
            value: *n,
        })?;
    }
    Ok(())
}

fn is_clock(role: Role) -> bool
    ensures { result ≡ same_role clock role }
{
    match role {
        Role::Clock => true,
        _ => false,
    }
}

/// The words of signals, but the clock's, in order.
fn all_shown(alloc: Global, signals: &[Signal], words: &[Numbers]) -> Result<ShownList, AllocError>
    requires signals { length signals.now < 2 ^ 32 }
    requires words { All (λ (row : List ℕ). length row < 2 ^ 32) words.now }
    ensures { IfOk result (λ list. list ≡ shown_from 0 signals.now words.now) }
{
    let mut list = ShownList::new(alloc);
    for (k, signal) in signals.iter().enumerate() {
        if !is_clock(signal.role) {
            show(&mut list, k as u32, mirror::words_at(words, k as u32))?;
        }
    }
    Ok(list)
}

/// All words of all signals but the clock, in flat order.
pub fn shown(alloc: Global, flat: &FlatModule, view: &View) -> Result<ShownList, AllocError>
    requires { length flat.now.signals < 2 ^ 32 }
    ensures { IfOk result (λ list. list ≡ shown_of flat.now view.now) }
{
    let words = mirror::signal_words(alloc, flat, view)?;
    all_shown(alloc, flat.signals.as_slice(), words.as_slice())
}

/// Those of the second list whose value isn't that of the first at the same place.
fn changes(alloc: Global, before: &[Shown], after: &[Shown]) -> Result<ShownList, AllocError>
    ensures { IfOk result (λ list. list ≡ changes_of before.now after.now) }
{
    let mut list = ShownList::new(alloc);
    for (x, y) in before.iter().zip(after) {
        if x.value != y.value {
            list.push(*y)?;
        }
    }
    Ok(list)
}

/// What a view shows that the one before it doesn't.
pub fn changed(
    alloc: Global,
    flat: &FlatModule,
    before: &View,
    after: &View,
) -> Result<ShownList, AllocError>
    requires { length flat.now.signals < 2 ^ 32 }
    ensures { IfOk result (λ list. list ≡ changed_of flat.now before.now after.now) }
{
    let old = shown(alloc, flat, before)?;
    let new = shown(alloc, flat, after)?;
    changes(alloc, old.as_slice(), new.as_slice())
}
