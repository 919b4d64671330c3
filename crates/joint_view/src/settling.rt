//! Terms evaluated: the wires that settle, and the registers after a clock edge.

ghost use Rattle.std.specs.Prelude.{◌≡◌, ℕ, ◌+◌, ◌<◌, ◌≤◌, ◌^◌, List, ◌++◌, length, map, All, IfOk, OnOk};
ghost use Rattle.bits_core.specs.Word.{Word as Worded};
ghost use Rattle.word_eqs.specs.Graph.{width_in, IsGraph};
ghost use Rattle.word_eqs.specs.Meaning.{AreValues, look, word_at};
ghost use Rattle.word_eqs.specs.declared.term.TermId.{TermId as Id};
ghost use Rattle.joint_ir.specs.Views.{worded, term_numbers as numbers_of_terms, settled_wires, next_registers as registers_after, widths_of, site_widths};
ghost use Rattle.joint_ir.specs.WellFormed.{FitsModule};
ghost use Rattle.joint_ir.specs.declared.module.Role.TheVariants.{Input as input, Register as register, Wire as wire};
ghost use Rattle.joint_view.specs.Conditions.{AreWords, IsView};

use crate::view::{Numbers, View};
use crate::words;
use bits_core::Word;
use joint_ir::FlatModule;
use std::alloc::{AllocError, Global};
use word_eqs::{TermId, TermIds, Terms, VarId, Words};

/// Puts numbers at the end of others.
fn push_all(numbers: &mut Numbers, more: &[u64]) -> Result<(), AllocError>
    ensures { OnOk result (numbers.new ≡ numbers.old ++ more.now) }
{
    for n in more {
        numbers.push(*n)?;
    }
    Ok(())
}

/// A word for each variable.
fn environment(alloc: Global, terms: &Terms, numbers: &[u64]) -> Result<Words, AllocError>
    requires { AreWords terms.now.vars numbers.now }
    ensures words { IfOk result (λ env. env ≡ worded terms.now.vars numbers.now) }
    ensures widths { IfOk result (λ env. map (λ (a : Worded). a.width) env ≡ terms.now.vars) }
{
    let mut env = Words::new(alloc);
    for k in 0..terms.vars() {
        let width = terms.width_of_var(VarId(k));
        env.push(words::word_of(width, numbers[k as usize]))?;
    }
    Ok(env)
}

/// So many words that say nothing yet.
fn blank(alloc: Global, count: u32) -> Result<Words, AllocError>
    ensures { IfOk result (λ words. length words ≡ count) }
{
    let mut words = Words::new(alloc);
    for k in 0..count {
        words.push(Word::from_low_bits(1, 0))?;
    }
    Ok(words)
}

/// The word of each term.
fn words_of(alloc: Global, terms: &Terms, env: &Words) -> Result<Words, AllocError>
    requires { map (λ (a : Worded). a.width) env.now ≡ terms.now.vars }
    ensures len { IfOk result (λ words. length words ≡ length terms.now.terms) }
    ensures values { IfOk result (λ words. AreValues (look (word_at env.now) words) terms.now.terms) }
    ensures proper { IsGraph terms.now }
{
    let mut words = blank(alloc, terms.len())?;
    terms.eval_into(env, &mut words);
    Ok(words)
}

/// The numbers that the words of terms are.
fn numbers_at(alloc: Global, words: &[Word], ids: &[TermId]) -> Result<Numbers, AllocError>
    requires there { All (λ (t : Id). t.0 < length words.now) ids.now }
    requires narrow { All (λ (t : Id). (word_at words.now t.0).value < 2 ^ 64) ids.now }
    ensures { IfOk result (λ ns. ns ≡ map (λ (t : Id). (word_at words.now t.0).value) ids.now) }
{
    let mut numbers = Numbers::new(alloc);
    for id in ids {
        numbers.push(words[id.0 as usize].value() as u64)?;
    }
    Ok(numbers)
}

/// The numbers of terms, given those of the variables.
fn term_numbers(
    alloc: Global,
    terms: &Terms,
    numbers: &[u64],
    ids: &TermIds,
) -> Result<Numbers, AllocError>
    requires vars { AreWords terms.now.vars numbers.now }
    requires there { All (λ (t : Id). t.0 < length terms.now.terms) ids.now }
    requires narrow { All (λ (t : Id). width_in terms.now t.0 ≤ 64) ids.now }
    ensures value { IfOk result (λ ns. ns ≡ numbers_of_terms terms.now numbers.now ids.now) }
    ensures words { IfOk result (λ ns. AreWords (map (λ (t : Id). width_in terms.now t.0) ids.now) ns) }
{
    let env = environment(alloc, terms, numbers)?;
    let words = words_of(alloc, terms, &env)?;
    numbers_at(alloc, words.as_slice(), ids.as_slice())
}

/// The numbers of the variables of a settling.
fn settle_numbers(
    alloc: Global,
    registers: &[u64],
    inputs: &[u64],
    unknown: &[u64],
) -> Result<Numbers, AllocError>
    ensures { IfOk result (λ ns. ns ≡ registers.now ++ inputs.now ++ unknown.now) }
{
    let mut numbers = Numbers::from_slice(alloc, registers)?;
    push_all(&mut numbers, inputs)?;
    push_all(&mut numbers, unknown)?;
    Ok(numbers)
}

/// The numbers of the variables of a clock edge.
fn edge_numbers(alloc: Global, view: &View, unknown: &[u64]) -> Result<Numbers, AllocError>
    ensures { IfOk result (λ ns. ns ≡ view.now.registers ++ view.now.inputs ++ view.now.wires ++ unknown.now) }
{
    let mut numbers = Numbers::from_slice(alloc, view.registers())?;
    push_all(&mut numbers, view.inputs())?;
    push_all(&mut numbers, view.wires())?;
    push_all(&mut numbers, unknown)?;
    Ok(numbers)
}

/// The wires that settle, given the words of the registers, of the inputs and the unknown words.
pub fn settled(
    alloc: Global,
    flat: &FlatModule,
    registers: &[u64],
    inputs: &[u64],
    unknown: &[u64],
) -> Result<Numbers, AllocError>
    requires fits { FitsModule flat.now }
    requires registers { AreWords (widths_of register flat.now.signals) registers.now }
    requires inputs { AreWords (widths_of input flat.now.signals) inputs.now }
    requires unknown { AreWords (site_widths flat.now.settle_sites) unknown.now }
    ensures value { IfOk result (λ ws. ws ≡ settled_wires flat.now registers.now inputs.now unknown.now) }
    ensures words { IfOk result (λ ws. AreWords (widths_of wire flat.now.signals) ws) }
{
    let numbers = settle_numbers(alloc, registers, inputs, unknown)?;
    term_numbers(alloc, &flat.settle_terms, numbers.as_slice(), &flat.settled)
}

/// The register words after a clock edge, given the view before it and the unknown words.
pub fn next_registers(
    alloc: Global,
    flat: &FlatModule,
    view: &View,
    unknown: &[u64],
) -> Result<Numbers, AllocError>
    requires fits { FitsModule flat.now }
    requires view { IsView flat.now view.now }
    requires unknown { AreWords (site_widths flat.now.edge_sites) unknown.now }
    ensures value { IfOk result (λ rs. rs ≡ registers_after flat.now view.now unknown.now) }
    ensures words { IfOk result (λ rs. AreWords (widths_of register flat.now.signals) rs) }
{
    let numbers = edge_numbers(alloc, view, unknown)?;
    term_numbers(alloc, &flat.edge_terms, numbers.as_slice(), &flat.next)
}
