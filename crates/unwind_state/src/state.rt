// What an unwinding has made so far.

ghost use Rattle.std.specs.Prelude.{◌≡◌};
ghost use Rattle.unwind_state.specs.Guards.{flow_at};

use joint_ir::Way;
use sized_terms::SizedTerm;
use unrolled::Objects;
use word_eqs::TermIds;

/// Whether a path is live, which the code may know already.
#[derive(Clone, Copy, Debug, PartialEq, Eq)]
pub enum Guard {
    /// It is live in no assignment.
    Never,
    /// It is live in each.
    Always,
    /// It is live where a term of one bit is 1.
    When(SizedTerm),
}

/// The guards of the ways on.
#[derive(Clone, Copy, Debug, PartialEq, Eq)]
pub struct Flow {
    pub next: Guard,
    pub breaking: Guard,
    pub continuing: Guard,
    pub returning: Guard,
}

impl Flow {
    /// One way on under a guard.
    pub fn only(way: Way, guard: Guard) -> Flow
        ensures { result ≡ flow_at way guard }
    {
        let never = Guard::Never;
        let mut flow = Flow {
            next: never,
            breaking: never,
            continuing: never,
            returning: never,
        };
        match way {
            Way::Next => flow.next = guard,
            Way::Breaking => flow.breaking = guard,
            Way::Continuing => flow.continuing = guard,
            Way::Returning => flow.returning = guard,
        }
        flow
    }
}

/// A guard where a test holds, and where it doesn't.
#[derive(Clone, Copy, Debug, PartialEq, Eq)]
pub struct Sides {
    pub taken: Guard,
    pub other: Guard,
}

/// A term for each element of each object, and for each word of the module.
#[derive(Drop)]
pub struct State {
    pub objects: Objects,
    pub registers: TermIds,
    pub inputs: TermIds,
    /// The unknown words of the last settling.
    pub unknown: TermIds,
    pub wires: TermIds,
    /// The clock edges so far, in 32 bits.
    pub edges: SizedTerm,
    /// What the activation that runs returns, if its function has a result.
    pub result: SizedTerm,
}
