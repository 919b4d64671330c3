//! What typed expressions have of their sources: the type, the value in every store with its checks, and that they are
//! well-formed.
//!
//! Nothing here does anything: each function is the statement of a law.
#![tactic(auto)]

ghost use Rattle.c_meaning.specs.Laws.{ExpressionsMean, ExpressionsFit, NotedStand};

/// The typed form of an expression means what its source means.
pub fn expressions_mean()
    ensures means { ExpressionsMean }
    ensures stand { NotedStand }
{}

/// The typed form of an expression is well-formed.
pub fn expressions_fit()
    ensures { ExpressionsFit }
{}
