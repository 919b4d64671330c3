//! Laws of logs that are stated over the variables that stand in their inputs. Nothing here is run.
#![tactic(auto)]

ghost use Rattle.log_laws.specs.Variables.{LengthByVariables, LengthOfOpenLog};

/// A valid log whose inputs hold no other variables than some `n` has at most `3 ^ n` steps, and at most `3 ^ n - 1`
/// results that aren't empty; so it is shorter than `3 ^ n` where none of its results is empty. The contract is the law.
pub fn length_by_variables()
    ensures length { LengthByVariables }
    ensures unended { LengthOfOpenLog }
{}
