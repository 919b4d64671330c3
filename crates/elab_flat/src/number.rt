//! Known numbers in flat expressions.

ghost use Rattle.std.specs.Prelude.{◌≡◌, ◌≤◌};
ghost use Rattle.v_tree.specs.Starts.{literal_start as literal_start_of};
ghost use Rattle.elab_flat.specs.Numbers.{word_or_nought as word_or_nought_of, or_false as or_false_of, number_from as number_from_of, lacks_size as lacks_size_of, literal_number as literal_number_of, flat_name as flat_name_of, flat_select as flat_select_of, up_to, signal_number as signal_number_of};

use bits_core::Word;
use elab_names::constant::{Standing, Worth, literal_constant, literal_standing};
use elab_names::names::{Entry, Turn};
use elab_names::scope::entry_standing;
use elab_names::select::{Number as Index, entry_low};
use flat_tree::{FlatExpr, FlatSelection, Number};
use src_text::Place;
use v_tree::Literal;

fn word_or_nought(worth: Worth) -> Word
    ensures { result ≡ word_or_nought_of worth }
{
    match worth {
        Worth::Value(w) => w,
        Worth::Open | Worth::NotConstant => Word::from_low_bits(32, 0),
    }
}

fn or_false(signed: Option<bool>) -> bool
    ensures { result ≡ or_false_of signed }
{
    match signed {
        None => false,
        Some(s) => s,
    }
}

fn number_from(place: Place, is_unsized: bool, s: Standing) -> Number
    ensures { result ≡ number_from_of place is_unsized s }
{
    Number {
        place,
        word: word_or_nought(s.worth),
        signed: or_false(s.signed),
        is_unsized,
    }
}

fn lacks_size(l: &Literal) -> bool
    ensures { result ≡ lacks_size_of l.now }
{
    match l {
        Literal::Decimal(_) | Literal::Based(_) => true,
        Literal::Sized(_, _) => false,
    }
}

fn literal_start(l: &Literal) -> Place
    ensures { result ≡ literal_start_of l.now }
{
    match l {
        Literal::Decimal(number) => number.place,
        Literal::Based(number) => number.place,
        Literal::Sized(size, _) => size.place,
    }
}

/// A literal as a number.
pub fn literal_number(l: &Literal) -> Number
    ensures { result ≡ literal_number_of l.now }
{
    let standing = literal_standing(literal_constant(l));
    number_from(literal_start(l), lacks_size(l), standing)
}

/// A name that is read.
pub fn flat_name(turns: &[Turn], place: Place, entry: &Option<Entry>) -> FlatExpr
    ensures { result ≡ flat_name_of turns.now place entry.now }
{
    match entry {
        Some(Entry::Signal(s)) => FlatExpr::Signal(place, s.number),
        _ => {
            let standing = entry_standing(turns, entry);
            FlatExpr::Literal(number_from(place, false, standing))
        }
    }
}

/// A select of a name that is read.
pub fn flat_select(
    turns: &[Turn],
    place: Place,
    entry: &Option<Entry>,
    selection: FlatSelection,
) -> FlatExpr
    ensures { result ≡ flat_select_of turns.now place entry.now selection }
{
    match entry {
        Some(Entry::Signal(s)) => FlatExpr::Select(place, s.number, selection),
        _ => {
            let standing = entry_standing(turns, entry);
            let word = word_or_nought(standing.worth);
            FlatExpr::SelectNumber(place, word, entry_low(entry), selection)
        }
    }
}

/// A number up to a greatest one; 0 where there is none.
pub fn number_up_to(most: u32, n: Index) -> u32
    ensures value { result ≡ up_to most n }
    ensures most { result ≤ most }
{
    match n {
        Index::Known(n) => {
            if n < 0 {
                0
            } else if n > i64::from(most) {
                0
            } else {
                n as u32
            }
        }
        Index::Open | Index::NotConstant => 0,
    }
}

/// The number of a signal.
pub fn signal_number(entry: &Option<Entry>) -> u32
    ensures { result ≡ signal_number_of entry.now }
{
    match entry {
        Some(Entry::Signal(s)) => s.number,
        _ => 0,
    }
}
