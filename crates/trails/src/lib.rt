//! What a guarded list does beside a run, in one assignment: it draws what the run draws, is ended where the run ends, and
//! tells by its guards which way the run goes on. Nothing here is run.
#![tactic(auto)]

ghost use Rattle.trails.specs.Covering.{TrailsCover};

/// Where a whole list does what a run of a pair does, the list covers that run. The contract is the law.
pub fn trails_cover()
    ensures { TrailsCover }
{}
