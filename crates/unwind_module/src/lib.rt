//! The module's side of an unwinding: how a run begins, and the law that a whole list covers all runs. Nothing here is run.
#![tactic(auto)]

ghost use Rattle.unwind_module.specs.Starting.{MainCovers};

/// Where the body of `main` was unwound behind a run's beginning, the whole list covers all runs. The contract is the law.
pub fn main_covers()
    ensures { MainCovers }
{}
