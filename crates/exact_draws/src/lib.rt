//! A law of joint runs: a run looks at the choices that it draws, at each modulo 2 to the width of its draw, and at nothing
//! more. Nothing here is run.
#![tactic(auto)]

ghost use Rattle.exact_draws.specs.Draws.{ExactDraws};

/// A run uses up one choice for each width that it tells, and does the same on every list that begins with choices which
/// are equal to those modulo 2 to their widths; what follows them is left. The contract is the law.
pub fn exact_draws()
    ensures { ExactDraws }
{}
