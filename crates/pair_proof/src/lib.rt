//! What shows a verdict on a pair: the list of its runs, the net of the list, the clauses of the net with what was derived
//! from them, and the log of that. Here is what it says, and what follows from it; nothing here is run.
#![tactic(auto)]

use bitblast::Blasted;
use clause_arena::ClauseArena;
use res_log::Log;
use unwound::Unwound;

/// What shows a verdict on a pair.
#[derive(Drop)]
pub struct Proof {
    pub unwound: Unwound,
    pub blasted: Blasted,
    /// The clauses of the net, and those derived from them.
    pub arena: ClauseArena,
    pub log: Log,
}
