//! Random words.

ghost use Rattle.std.specs.Prelude.{◌≡◌, map, IfOk};
ghost use Rattle.bits_core.specs.Word.{Word as Worded};

use bits_core::Word;
use rand_core::utils::NextWord;
use rand_pcg::Pcg32;
use std::alloc::{AllocError, Global};
use word_eqs::{Terms, VarId, Words};

/// A number of 64 bits or more, often one near 0 or near the end of a range.
fn number(random: &mut Pcg32) -> u128 {
    let low = random.next_word();
    let high = random.next_word();
    match random.next_word() % 8 {
        0 => 0,
        1 => u128::MAX,
        2 => (low % 8) as u128,
        3 => u128::MAX - (low % 8) as u128,
        4 => 1 << (low % 64),
        _ => high as u128 * 4_294_967_296 + low as u128,
    }
}

/// A random word for each variable, of its width.
pub fn random_words(alloc: Global, terms: &Terms, random: &mut Pcg32) -> Result<Words, AllocError>
    ensures { IfOk result (λ words. map (λ (a : Worded). a.width) words ≡ terms.now.vars) }
{
    let mut words = Words::new(alloc);
    for x in 0..terms.vars() {
        let number = number(random);
        words.push(Word::from_low_bits(terms.width_of_var(VarId(x)), number))?;
    }
    Ok(words)
}
