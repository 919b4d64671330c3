//! What an assignment makes of a list, step by step. Lists whose steps set variables aren't walked: an unwinding makes none.

ghost use Rattle.std.specs.Prelude.{◌≡◌, length, map, IfOk};
ghost use Rattle.bits_core.specs.Word.{Word as Worded};

use bits_core::Word;
use joint_ir::Choices;
use std::alloc::{AllocError, Global};
use unwound::Unwound;
use word_eqs::{Act, GuardedList, Step, TermId, Words};

/// What a walk reads, and the property that ends it, if one does.
#[derive(Drop)]
pub struct Walk {
    pub reads: Choices,
    pub broken: Option<u32>,
}

/// What one step does.
enum StepEnd {
    Passes,
    Reads(u64),
    Ends(Option<u32>),
}

/// The number at a place, or 0 where there is none.
fn value_at(words: &Words, at: u32) -> u128 {
    match words.get(at as usize) {
        Some(word) => word.value(),
        None => 0,
    }
}

fn is_zero(words: &Words, term: TermId) -> bool {
    value_at(words, term.0) == 0
}

fn end_of_step(step: Step, env: &Words, words: &Words) -> StepEnd {
    if is_zero(words, step.guard) {
        return StepEnd::Passes;
    }
    match step.act {
        Act::Free(x) => StepEnd::Reads((value_at(env, x.0) % (1 << 64)) as u64),
        Act::Set(..) => StepEnd::Ends(None),
        Act::Cut(t) => {
            if is_zero(words, t) {
                StepEnd::Ends(None)
            } else {
                StepEnd::Passes
            }
        }
        Act::Prop(p, t) => {
            if is_zero(words, t) {
                StepEnd::Ends(Some(p))
            } else {
                StepEnd::Passes
            }
        }
    }
}

/// The walk over a list, by the words of its variables and of its terms.
fn walk_over(
    alloc: Global,
    list: &GuardedList,
    env: &Words,
    words: &Words,
) -> Result<Walk, AllocError> {
    let mut reads = Choices::new(alloc);
    for at in 0..list.len() {
        match end_of_step(list.get(at), env, words) {
            StepEnd::Passes => {}
            StepEnd::Reads(choice) => reads.push(choice)?,
            StepEnd::Ends(broken) => return Ok(Walk { reads, broken }),
        }
    }
    Ok(Walk {
        reads,
        broken: None,
    })
}

/// So many words that say nothing yet.
fn blank(alloc: Global, count: u32) -> Result<Words, AllocError>
    ensures { IfOk result (λ words. length words ≡ count) }
{
    let mut words = Words::new(alloc);
    for _ in 0..count {
        words.push(Word::from_low_bits(1, 0))?;
    }
    Ok(words)
}

/// What a word for each variable makes of a list.
pub fn walk_on(alloc: Global, made: &Unwound, env: &Words) -> Result<Walk, AllocError>
    requires { map (λ (a : Worded). a.width) env.now ≡ made.now.terms.vars }
{
    let mut words = blank(alloc, made.terms.len())?;
    made.terms.eval_into(env, &mut words);
    walk_over(alloc, &made.list, env, &words)
}
