//! Which literals of a derived clause other literals of it imply. What is found here is a proposal:
//! whatever it says, the clause that is made smaller by it is right.

ghost use Rattle.std.specs.Prelude.{◌≡◌, ◌<◌, true, length};
ghost use Rattle.clause_arena.specs.Clause.{is_below};
ghost use Rattle.cdcl.specs.Held.{vars_of};

use crate::trail::Trail;
use clause_arena::{ClauseArena, Lit};
use std::alloc::{AllocError, Global};

/// How many reasons are followed in a row.
const DEPTH: u32 = 20;

/// What is known of a variable.
#[derive(Clone, Copy)]
pub enum State {
    Unknown,
    /// Its literal is in the clause.
    Inside,
    /// Literals of the clause imply its literal.
    Spare,
    Needed,
}

/// Whether the reason of a variable leads back to the clause. The places of the variables on the way
/// that do are added to the places.
pub fn follows(
    arena: &ClauseArena,
    trail: &Trail,
    states: &mut [State],
    places: &mut Vec<usize>,
    var: u32,
    depth: u32,
) -> Result<bool, AllocError>
    requires sized { length states.old ≡ vars_of trail.now }
    requires var { var < vars_of trail.now }
    ensures { length states.new ≡ length states.old }
{
    if depth == 0 {
        return Ok(false);
    }
    let reason = match trail.reasons[var as usize] {
        None => return Ok(false),
        Some(reason) => reason,
    };
    if !arena.is_live(reason) {
        return Ok(false);
    }
    for l in arena.lits(reason) {
        if l.var == var {
            continue;
        }
        let at = l.var as usize;
        if states.len() <= at {
            return Ok(false);
        }
        match states[at] {
            State::Inside => continue,
            State::Spare => continue,
            State::Needed => return Ok(false),
            State::Unknown => {}
        }
        if !follows(arena, trail, states, places, l.var, depth - 1)? {
            states[at] = State::Needed;
            return Ok(false);
        }
        states[at] = State::Spare;
        places.push(trail.places[at])?;
    }
    Ok(true)
}

/// The variables of the clause are inside.
fn set_inside(states: &mut [State], derived: &[Lit])
    requires { is_below (length states.old) derived.now ≡ true }
{
    for l in derived {
        states[l.var as usize] = State::Inside;
    }
}

/// Adds the places of the literals before `start` that others of the clause imply, and of those on
/// the way.
fn add_spares(
    arena: &ClauseArena,
    trail: &Trail,
    start: usize,
    derived: &[Lit],
    states: &mut [State],
    places: &mut Vec<usize>,
) -> Result<(), AllocError>
    requires sized { length states.old ≡ vars_of trail.now }
    requires derived { is_below (vars_of trail.now) derived.now ≡ true }
{
    for l in derived {
        let place = trail.places[l.var as usize];
        if start <= place {
            continue;
        }
        if follows(arena, trail, states, places, l.var, DEPTH)? {
            places.push(place)?;
        }
    }
    Ok(())
}

/// The places of the literals that are worth resolving away, the oldest first. `start` is where the
/// last level begins.
pub fn spare_places(
    alloc: Global,
    arena: &ClauseArena,
    trail: &Trail,
    start: usize,
    derived: &[Lit],
) -> Result<Vec<usize>, AllocError>
    requires { is_below (vars_of trail.now) derived.now ≡ true }
{
    let mut states = vec![in alloc; State::Unknown; trail.values.len()]?;
    set_inside(&mut states, derived);
    let mut places: Vec<usize> = Vec::new(alloc);
    add_spares(arena, trail, start, derived, &mut states, &mut places)?;
    places.sort_unstable();
    Ok(places)
}
