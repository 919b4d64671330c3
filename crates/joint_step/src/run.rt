//! A whole run, on a list of choices.

ghost use Rattle.std.specs.Prelude.{◌≡◌, ◌++◌, ◌∷◌, [], IfOk, IfErr, MatchResult, slice_get};
ghost use Rattle.joint_ir.specs.Runs.{run_of, ended, main_effect, body_of};
ghost use Rattle.joint_ir.specs.WellFormed.{IsWellFormed};
ghost use Rattle.joint_view.specs.Halts.{HaltsAs, last_events, unmeasured};
ghost use Rattle.joint_machine.specs.Moments.{Does, Halts, IsReady, from_here};
ghost use Rattle.joint_step.specs.Ends.{IsRun, IsCutOff, IsShort};

use crate::walk;
use joint_ir::{ACTIVATIONS, Bounds, Choices, Event, EventList, Outcome, Pair, Way};
use joint_machine::{Activation, Machine, machine};
use joint_value::{Rows, Store};
use joint_view::{Halt, seen, steps};
use std::alloc::{AllocError, Global};

/// How a run ended, and what was seen of it.
#[derive(Debug, Drop)]
pub struct Replayed {
    pub outcome: Outcome,
    pub events: EventList,
}

/// Why a run was not carried out to its end.
#[derive(Clone, Copy, Debug, PartialEq, Eq)]
pub enum ReplayEnd {
    /// It draws more choices than there are.
    TooFew,
    /// There is no more memory.
    Memory,
}

/// The run of a pair on a list of choices. Choices that are left over are ignored.
pub fn replay(
    alloc: Global,
    pair: &Pair,
    bounds: &Bounds,
    choices: &Choices,
) -> Result<Replayed, ReplayEnd>
    requires { IsWellFormed pair.now }
    ensures { MatchResult result (λ r. IsRun r (run_of pair.now bounds.now choices.now)) (λ e. IsCutOff e (run_of pair.now bounds.now choices.now)) }
{
    match begin(alloc, pair, choices) {
        Err(halt) => finished(Vec::new(alloc), halt),
        Ok(mut machine) => {
            let halt = run_main(alloc, pair, bounds, &mut machine);
            finished(machine.events, halt)
        }
    }
}

/// A machine at the first state of a run, whose first frame is seen.
fn begin(alloc: Global, pair: &Pair, choices: &Choices) -> Result<Machine, Halt>
    requires { IsWellFormed pair.now }
    ensures begun { IfOk result (λ m. (bounds : Bounds) → unmeasured (run_of pair.now bounds choices.now) ≡ ended (from_here m (main_effect pair.now bounds (body_of (slice_get pair.now.program.functions pair.now.program.main))))) }
    ensures halts { IfErr result (λ h. (bounds : Bounds) → HaltsAs h choices.now (run_of pair.now bounds choices.now)) }
    ensures ready { IfOk result (λ m. IsReady pair.now m) }
    ensures standing { IfOk result (λ m. m.standing.items ≡ pair.now.program.main ∷ []) }
{
    let begun = steps::begin(alloc, pair, choices.as_slice())?;
    let shown = seen::shown(alloc, &pair.module, &begun.view)?;
    let events = first_event(alloc, Event::Frame(0, shown))?;
    let standing = first_standing(alloc, pair.program.main)?;
    let globals = Rows::first(alloc, pair.program.globals.as_slice())?;
    let locals = Rows::first(alloc, pair.program.locals.as_slice())?;
    let copied = Choices::from_slice(alloc, choices.as_slice())?;
    Ok(Machine {
        store: Store::new(globals, locals, Rows::from_vec(begun.members)),
        view: begun.view,
        edges: 0,
        returned: 0,
        choices: copied,
        at: begun.at,
        events,
        standing,
    })
}

/// What is seen at first.
fn first_event(alloc: Global, event: Event) -> Result<Vec<Event>, AllocError>
    ensures { IfOk result (λ events. events.items ≡ event ∷ []) }
{
    let mut events = Vec::new(alloc);
    machine::push(&mut events, event)?;
    Ok(events)
}

/// The activation of `main`.
fn first_standing(alloc: Global, main: u32) -> Result<Vec<u32>, AllocError>
    ensures { IfOk result (λ standing. standing.items ≡ main ∷ []) }
{
    let mut standing = Vec::new(alloc);
    match standing.push(main) {
        Ok(()) => Ok(standing),
        Err(e) => Err(AllocError::from(e)),
    }
}

/// How the run of `main` comes to a halt.
fn run_main(alloc: Global, pair: &Pair, bounds: &Bounds, machine: &mut Machine) -> Halt
    requires well { IsWellFormed pair.now }
    requires ready { IsReady pair.now machine.old }
    requires standing { machine.old.standing.items ≡ pair.now.program.main ∷ [] }
    ensures { Halts result machine.new (ended (from_here machine.old (main_effect pair.now bounds.now (body_of (slice_get pair.now.program.functions pair.now.program.main))))) }
{
    match main_body(alloc, pair, bounds, machine) {
        Ok(_) => Halt::Stop(Outcome::Ended),
        Err(halt) => halt,
    }
}

/// The body of `main`.
fn main_body(
    alloc: Global,
    pair: &Pair,
    bounds: &Bounds,
    machine: &mut Machine,
) -> Result<Way, Halt>
    requires well { IsWellFormed pair.now }
    requires ready { IsReady pair.now machine.old }
    requires standing { machine.old.standing.items ≡ pair.now.program.main ∷ [] }
    ensures { Does result machine.old machine.new (main_effect pair.now bounds.now (body_of (slice_get pair.now.program.functions pair.now.program.main))) }
{
    let here = pair.program.main;
    match pair.program.functions.get(here as usize) {
        None => Ok(Way::Next),
        Some(main) => match &main.body {
            None => Ok(Way::Next),
            Some(body) => {
                let at = Activation {
                    pair,
                    bounds,
                    here,
                    left: ACTIVATIONS as u32 - 1,
                };
                walk::statement(alloc, &at, machine, body)
            }
        },
    }
}

/// What is told of a run that came to a halt. A property that breaks is seen last.
fn finished(events: Vec<Event>, halt: Halt) -> Result<Replayed, ReplayEnd>
    ensures { MatchResult result (λ r. (halt ≡ Halt.Stop r.outcome) × (r.events ≡ events.items ++ last_events r.outcome)) (λ e. IsShort e halt) }
{
    match halt {
        Halt::Stop(outcome) => match with_last(events, outcome) {
            Ok(events) => Ok(Replayed { outcome, events }),
            Err(_) => Err(ReplayEnd::Memory),
        },
        Halt::TooFew => Err(ReplayEnd::TooFew),
        Halt::Memory => Err(ReplayEnd::Memory),
    }
}

/// The events of a run that ended so.
fn with_last(events: Vec<Event>, outcome: Outcome) -> Result<EventList, AllocError>
    ensures { IfOk result (λ list. list ≡ events.items ++ last_events outcome) }
{
    let mut list = EventList::from_vec(events);
    match outcome {
        Outcome::Broken(prop) => list.push(Event::Broke(prop))?,
        _ => {}
    }
    Ok(list)
}
