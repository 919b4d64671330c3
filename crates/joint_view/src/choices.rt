//! Draws from a list of choices, and how many bits each draw has.

ghost use Rattle.std.specs.Prelude.{◌≡◌, ℕ, ◌+◌, ◌<◌, ◌≤◌, ◌^◌, List, [], ◌∷◌, ◌++◌, length, drop, All, IfSome, IfOk, IfErr, OnOk, MatchResult};
ghost use Rattle.joint_ir.specs.Effects.{Effect, TooFew as NoMore, draw as draw_of, draw_all as draw_all_of};
ghost use Rattle.joint_ir.specs.Runs.{draw_registers as draw_registers_of};
ghost use Rattle.joint_ir.specs.States.{copies, element_count};
ghost use Rattle.joint_ir.specs.Views.{widths_of as widths_of_role, site_widths as widths_of_sites, same_role as same_role_of};
ghost use Rattle.joint_ir.specs.WellFormed.{FitFirsts, FitsSignal, FitsSite};
ghost use Rattle.joint_view.specs.Conditions.{AreWords, IsNarrow};
ghost use Rattle.joint_view.specs.Halts.{Draws, HaltsDraws, unmeasured};

use crate::halt::Halt;
use crate::view::Numbers;
use bits_core::Word;
use joint_ir::{Role, Signal, Site};
use sqlite_items::Items;
use std::alloc::{AllocError, Global};

/// Numbers of bits.
pub type Widths = Items<u8>;

/// Numbers that were drawn, and the number of choices that are used up then.
#[derive(Drop)]
pub struct Drawn {
    pub numbers: Numbers,
    pub at: usize,
}

/// A number of so many bits: the choice at a place modulo 2^bits. Its use takes the place one further.
pub fn draw(bits: u8, choices: &[u64], at: usize) -> Result<u64, Halt>
    requires { IsNarrow bits }
    ensures drawn { IfOk result (λ n. (go : ℕ → List ℕ → Effect) → unmeasured (draw_of bits (drop at choices.now) go) ≡ unmeasured (go n (drop (at + 1) choices.now))) }
    ensures too_few { IfErr result (λ h. (h ≡ Halt.TooFew) × ((go : ℕ → List ℕ → Effect) → unmeasured (draw_of bits (drop at choices.now) go) ≡ NoMore)) }
    ensures below { IfOk result (λ n. n < 2 ^ bits) }
    ensures within { OnOk result (at < length choices.now) }
{
    match choices.get(at) {
        None => Err(Halt::TooFew),
        Some(choice) => Ok(Word::from_low_bits(bits, *choice as u128).value() as u64),
    }
}

/// A number for each width, in order.
pub fn draw_all(alloc: Global, widths: &[u8], choices: &[u64], at: usize) -> Result<Drawn, Halt>
    requires { All IsNarrow widths.now }
    ensures drawn { IfOk result (λ d. Draws (draw_all_of widths.now (drop at choices.now)) d.numbers (drop d.at choices.now)) }
    ensures halts { IfErr result (λ h. HaltsDraws h (draw_all_of widths.now (drop at choices.now))) }
    ensures words { IfOk result (λ d. AreWords widths.now d.numbers) }
    ensures within { IfOk result (λ d. at ≤ length choices.now → d.at ≤ length choices.now) }
{
    let mut numbers = Numbers::new(alloc);
    let mut next = at;
    for bits in widths {
        let n = draw(*bits, choices, next)?;
        next += 1;
        numbers.push(n)?;
    }
    Ok(Drawn { numbers, at: next })
}

/// The word of a register: its first value if it has one, else a draw. With it comes the place in the choices then.
fn draw_register(
    first: Option<u64>,
    bits: u8,
    choices: &[u64],
    at: usize,
) -> Result<(u64, usize), Halt>
    requires bits { IsNarrow bits }
    requires first { IfSome first (λ n. n < 2 ^ bits) }
    ensures drawn { IfOk result (λ d. Draws (draw_registers_of (first ∷ []) (bits ∷ []) (drop at choices.now)) (d.0 ∷ []) (drop d.1 choices.now)) }
    ensures halts { IfErr result (λ h. HaltsDraws h (draw_registers_of (first ∷ []) (bits ∷ []) (drop at choices.now))) }
    ensures below { IfOk result (λ d. d.0 < 2 ^ bits) }
    ensures within { IfOk result (λ d. at ≤ length choices.now → d.1 ≤ length choices.now) }
{
    match first {
        Some(n) => Ok((n, at)),
        None => {
            let n = draw(bits, choices, at)?;
            Ok((n, at + 1))
        }
    }
}

/// The words of registers, in order.
pub fn draw_registers(
    alloc: Global,
    firsts: &[Option<u64>],
    widths: &[u8],
    choices: &[u64],
    at: usize,
) -> Result<Drawn, Halt>
    requires widths { All IsNarrow widths.now }
    requires firsts { FitFirsts firsts.now widths.now }
    ensures drawn { IfOk result (λ d. Draws (draw_registers_of firsts.now widths.now (drop at choices.now)) d.numbers (drop d.at choices.now)) }
    ensures halts { IfErr result (λ h. HaltsDraws h (draw_registers_of firsts.now widths.now (drop at choices.now))) }
    ensures words { IfOk result (λ d. AreWords widths.now d.numbers) }
    ensures within { IfOk result (λ d. at ≤ length choices.now → d.at ≤ length choices.now) }
{
    let mut numbers = Numbers::new(alloc);
    let mut next = at;
    for (k, bits) in widths.iter().enumerate() {
        let (n, behind) = draw_register(firsts[k], *bits, choices, next)?;
        next = behind;
        numbers.push(n)?;
    }
    Ok(Drawn { numbers, at: next })
}

fn same_role(a: Role, b: Role) -> bool
    ensures { result ≡ same_role_of a b }
{
    match (a, b) {
        (Role::Input, Role::Input) => true,
        (Role::Clock, Role::Clock) => true,
        (Role::Register, Role::Register) => true,
        (Role::Wire, Role::Wire) => true,
        _ => false,
    }
}

fn push_copies(widths: &mut Widths, count: u32, bits: u8) -> Result<(), AllocError>
    ensures { OnOk result (widths.new ≡ widths.old ++ copies count bits) }
{
    for k in 0..count {
        widths.push(bits)?;
    }
    Ok(())
}

/// The numbers of bits of the words of a role, in flat order and by index.
pub fn widths_of(alloc: Global, role: Role, signals: &[Signal]) -> Result<Widths, AllocError>
    ensures value { IfOk result (λ ws. ws ≡ widths_of_role role signals.now) }
{
    let mut widths = Widths::new(alloc);
    for signal in signals {
        if same_role(role, signal.role) {
            push_copies(&mut widths, word_count(signal), signal.bits)?;
        }
    }
    Ok(widths)
}

/// The number of words of a signal.
pub fn word_count(signal: &Signal) -> u32
    ensures value { result ≡ element_count signal.now.words }
    ensures some { 0 < result }
{
    if signal.words == 0 { 1 } else { signal.words }
}

/// The numbers of bits of unknown words.
pub fn site_widths(alloc: Global, sites: &[Site]) -> Result<Widths, AllocError>
    ensures { IfOk result (λ ws. ws ≡ widths_of_sites sites.now) }
{
    let mut widths = Widths::new(alloc);
    for site in sites {
        widths.push(site.bits)?;
    }
    Ok(widths)
}
