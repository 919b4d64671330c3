//! A tree of games between variables. The winner of each goes on to the game above it, as in a tournament (D. E. Knuth,
//! The Art of Computer Programming, volume 3, section 5.2.3).
//!
//! With n variables, the games are numbered from 1 to n - 1, and the players come from the places 2 k and 2 k + 1 to
//! game k. A place from n on is a variable's own.

ghost use Rattle.std.specs.Prelude.{◌≡◌, ◌<◌, ◌≤◌, ◌+◌, ◌*◌, ◌/◌, ◌^◌, ℕ, true, length, map, slice_index, slice_set};
ghost use Rattle.variable_ranks.specs.Games.{winner, player, ArePlayed, ArePlayedBut, ArePlayedFrom};

/// The number of a variable, or 0 where there is none.
fn number_of(numbers: &[u64], var: u32) -> u64
    ensures { result ≡ slice_index numbers.now var }
{
    match numbers.get(var as usize) {
        Some(number) => *number,
        None => 0,
    }
}

/// The one of two variables that wins: the one with the greater number, or the lower one at a tie.
fn better(numbers: &[u64], left: u32, right: u32) -> u32
    ensures { Some result ≡ winner numbers.now (Some left) (Some right) }
{
    let one = number_of(numbers, left);
    let other = number_of(numbers, right);
    if one < other || (one == other && right < left) {
        return right;
    }
    left
}

/// Who wins where two play, or one alone.
fn play(numbers: &[u64], left: Option<u32>, right: Option<u32>) -> Option<u32>
    ensures { result ≡ winner numbers.now left right }
{
    match left {
        None => right,
        Some(one) => match right {
            None => left,
            Some(other) => Some(better(numbers, one, other)),
        },
    }
}

/// Who comes from a place.
pub fn player_at(present: &[bool], winners: &[Option<u32>], place: usize) -> Option<u32>
    requires { length present.now < 2 ^ 32 }
    ensures { result ≡ player present.now winners.now place }
{
    if place < winners.len() {
        return winners[place];
    }
    let var = place - winners.len();
    match present.get(var) {
        Some(true) => Some(var as u32),
        _ => None,
    }
}

/// Whether two answers are one.
fn is_same(left: Option<u32>, right: Option<u32>) -> bool
    ensures { result ≡ true → left ≡ right }
{
    match left {
        None => match right {
            None => true,
            Some(_) => false,
        },
        Some(one) => match right {
            None => false,
            Some(other) => one == other,
        },
    }
}

/// Plays a game and those above it anew, until one ends as it did before.
pub fn replay(numbers: &[u64], present: &[bool], winners: &mut Vec<Option<u32>>, first: usize)
    requires few { length present.now < 2 ^ 32 }
    requires one_each { length winners.old.items ≡ length present.now }
    requires first { first < length present.now }
    requires played { ArePlayedBut numbers.now present.now winners.old.items first }
    ensures one_each { length winners.new.items ≡ length present.now }
    ensures played { ArePlayed numbers.now present.now winners.new.items }
{
    let mut game = first;
    'up: while 0 < game {
        let left = player_at(present, winners.as_slice(), 2 * game);
        let right = player_at(present, winners.as_slice(), 2 * game + 1);
        let won = play(numbers, left, right);
        if is_same(won, winners[game]) {
            return;
        }
        winners[game] = won;
        game /= 2;
    }
}

/// Plays all games, from the last one on.
pub fn play_all(numbers: &[u64], present: &[bool], winners: &mut Vec<Option<u32>>)
    requires few { length present.now < 2 ^ 32 }
    requires one_each { length winners.old.items ≡ length present.now }
    ensures one_each { length winners.new.items ≡ length present.now }
    ensures played { ArePlayed numbers.now present.now winners.new.items }
{
    let mut game = winners.len();
    'down: while 1 < game {
        game -= 1;
        let left = player_at(present, winners.as_slice(), 2 * game);
        let right = player_at(present, winners.as_slice(), 2 * game + 1);
        winners[game] = play(numbers, left, right);
    }
}

/// Divides each number.
pub fn divide_each(numbers: &mut Vec<u64>, by: u64)
    requires { 0 < by }
    ensures { numbers.new.items ≡ map (λ x. x / by) numbers.old.items }
{
    for at in 0..numbers.len() {
        numbers[at] /= by;
    }
}
