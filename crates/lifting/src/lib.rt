//! The choices of a run, from values of the net that its list was made.
#![tactic(auto)]

ghost use Rattle.std.specs.Prelude.{◌≡◌, ℕ, ◌<◌, ◌≤◌, ◌^◌, ◌++◌, Some, length, map, slice_get, IfOk};
ghost use Rattle.bits_core.specs.Word.{Word as Worded, word, bit};
ghost use Rattle.gate_net.specs.Edge.{edge_value};
ghost use Rattle.gate_net.specs.Net.{IsValuation};
ghost use Rattle.word_eqs.specs.declared.list.Step.{Step as Stepped};
ghost use Rattle.word_eqs.specs.Graph.{width_of_var};
ghost use Rattle.word_eqs.specs.Guarded.{IsOrdered, FitsStep, Walk, walk, walk_then, step_walk, choices_read};
ghost use Rattle.word_eqs.specs.Meaning.{Values, AreValues, look, word_at};
ghost use Rattle.bitblast.specs.Blasted.{StandsFor, AreBits};
ghost use Rattle.bitblast.specs.Circuit.{AreBelow, number_of};
ghost use Rattle.bitblast.specs.Wires.{edges_at};
ghost use Rattle.word_eqs.specs.Assignments.{IsAssignment};
ghost use Rattle.unwound.specs.Covers.{AreNarrow};
ghost use Rattle.lifting.specs.Lift.{values_in, FitsWords, IsNarrowStep, none_if, AreWords};

use bitblast::{Blasted, WireList};
use bits_core::Word;
use clause_arena::Bits;
use gate_net::Edge;
use joint_ir::Choices;
use std::alloc::{AllocError, Global};
use unwound::Unwound;
use word_eqs::{Act, GuardedList, Step, Terms, VarId, Words};

/// The value of an edge.
fn bit_of(edge: Edge, model: &[bool]) -> u128
    requires { edge.node < length model.now }
    ensures { result ≡ bit (edge_value (values_in model.now) edge) }
{
    if model[edge.node as usize] == edge.negated {
        0
    } else {
        1
    }
}

/// The number that edges have, the lowest bit first.
fn number_at(wire: &[Edge], model: &[bool]) -> u128
    requires few { length wire.now ≤ 128 }
    requires there { AreBelow (length model.now) wire.now }
    ensures { result ≡ number_of (values_in model.now) wire.now }
{
    let mut number: u128 = 0;
    let mut left = wire.len();
    while left > 0 {
        left -= 1;
        number = 2 * number + bit_of(wire[left], model);
    }
    number
}

/// The edges of a variable.
fn wire_at(wires: &WireList, x: u32) -> &[Edge]
    requires { x < length wires.now }
    ensures value { result.now ≡ edges_at wires.now x }
    ensures within { length result.now ≤ 128 }
{
    wires.as_slice()[x as usize].as_slice()
}

/// The word of each variable.
fn words_of(
    alloc: Global,
    terms: &Terms,
    wires: &WireList,
    model: &[bool],
) -> Result<Words, AllocError>
    requires names { length wires.now ≡ length terms.now.vars }
    requires widths { (x : ℕ) → x < length terms.now.vars → length (edges_at wires.now x) ≡ width_of_var terms.now x }
    requires there { (x : ℕ) → AreBelow (length model.now) (edges_at wires.now x) }
    ensures { IfOk result (AreWords terms.now wires.now model.now) }
{
    let mut words = Words::new(alloc);
    for x in 0..terms.vars() {
        let number = number_at(wire_at(wires, x), model);
        words.push(Word::from_low_bits(terms.width_of_var(VarId(x)), number))?;
    }
    Ok(words)
}

/// So many words that say nothing yet.
fn blank(alloc: Global, count: u32) -> Result<Words, AllocError>
    ensures { IfOk result (λ words. length words ≡ count) }
{
    let mut words = Words::new(alloc);
    for _ in 0..count {
        words.push(Word::from_low_bits(1, 0))?;
    }
    Ok(words)
}

/// The value of the word at a place.
fn value_at(words: &Words, at: u32) -> u128
    requires { at < length words.now }
    ensures { result ≡ (word_at words.now at).value }
{
    words.as_slice()[at as usize].value()
}

/// What a step reads, and whether it ends the list.
fn read_step(
    step: Step,
    env: &Words,
    words: &Words,
    reads: &mut Choices,
) -> Result<bool, AllocError>
    requires fits { FitsWords (length env.now) (length words.now) step }
    requires narrow { IsNarrowStep env.now step }
    ensures { IfOk result (λ ends. (w : Walk) → reads.old ++ choices_read (walk_then (step_walk (look (word_at env.now) words.now) step) w) ≡ reads.new ++ none_if ends (choices_read w)) }
{
    if value_at(words, step.guard.0) == 0 {
        return Ok(false);
    }
    match step.act {
        Act::Free(x) => {
            reads.push(value_at(env, x.0) as u64)?;
            Ok(false)
        }
        Act::Set(_, _) => Ok(false),
        Act::Cut(t) => Ok(value_at(words, t.0) == 0),
        Act::Prop(_, t) => Ok(value_at(words, t.0) == 0),
    }
}

/// The choices that a list reads, by the words of its variables and terms.
fn read(
    alloc: Global,
    list: &GuardedList,
    env: &Words,
    words: &Words,
) -> Result<Choices, AllocError>
    requires fits { (k : ℕ) (s : Stepped) → slice_get list.now k ≡ Some s → FitsWords (length env.now) (length words.now) s }
    requires narrow { (k : ℕ) (s : Stepped) → slice_get list.now k ≡ Some s → IsNarrowStep env.now s }
    ensures { IfOk result (λ reads. reads ≡ choices_read (walk (look (word_at env.now) words.now) list.now)) }
{
    let mut reads = Choices::new(alloc);
    for k in 0..list.len() {
        if read_step(list.get(k), env, words, &mut reads)? {
            return Ok(reads);
        }
    }
    Ok(reads)
}

/// The choices of the assignment that values of the net show.
pub fn lift(
    alloc: Global,
    unwound: &Unwound,
    blasted: &Blasted,
    model: &Bits,
) -> Result<Choices, AllocError>
    requires ordered { IsOrdered unwound.now.terms unwound.now.list }
    requires narrow { AreNarrow unwound.now.terms unwound.now.list }
    requires stands { StandsFor unwound.now.terms unwound.now.list blasted.now.net blasted.now.root blasted.now.wires }
    requires size { length model.now ≡ length blasted.now.net }
    ensures { IfOk result (λ choices. (v : Values) → IsAssignment unwound.now.terms unwound.now.list v → AreBits (values_in model.now) v unwound.now.terms blasted.now.wires → choices ≡ choices_read (walk v unwound.now.list)) }
{
    let env = words_of(alloc, &unwound.terms, &blasted.wires, model.as_slice())?;
    let mut words = blank(alloc, unwound.terms.len())?;
    unwound.terms.eval_into(&env, &mut words);
    read(alloc, &unwound.list, &env, &words)
}
