// The widths of choices.

ghost use Rattle.std.specs.Prelude.{◌≡◌, ◌↔◌, ℕ, IsTrue, Some, slice_get};
ghost use Rattle.word_eqs.specs.declared.list.Step.{Step as Stepped};
ghost use Rattle.word_eqs.specs.Guarded.{FitsAct, FitsStep};
ghost use Rattle.unwound.specs.Covers.{AreNarrow};
ghost use Rattle.list_checks.specs.Narrow.{IsNarrow};

use word_eqs::{Act, GuardedList, Terms};

/// Whether what a step leaves free has at most 64 bits.
fn is_narrow(terms: &Terms, act: Act) -> bool
    requires { FitsAct terms.now act }
    ensures { IsTrue result ↔ IsNarrow terms.now act }
{
    match act {
        Act::Free(x) => terms.width_of_var(x) <= 64,
        Act::Set(..) | Act::Cut(_) | Act::Prop(..) => true,
    }
}

/// Whether each variable that a list leaves free has at most 64 bits, as a choice has. The steps have to fit the terms.
pub fn are_narrow(terms: &Terms, list: &GuardedList) -> bool
    requires { (k : ℕ) (s : Stepped) → slice_get list.now k ≡ Some s → FitsStep terms.now s }
    ensures { IsTrue result ↔ AreNarrow terms.now list.now }
{
    for k in 0..list.len() {
        if !is_narrow(terms, list.get(k).act) {
            return false;
        }
    }
    true
}
