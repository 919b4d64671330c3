//! What typed statements have of their sources.
//!
//! Nothing here does anything: each function is the statement of a law.
#![tactic(auto)]

ghost use Rattle.c_statement_laws.specs.Laws.{DeclaratorsFit, InitializersFit, SimplesFit, StatementsFit};

/// What an object is set to is well-formed, a call with its arguments too.
pub fn initializers_fit()
    ensures { InitializersFit }
{}

/// An assignment, an update and a call that stands alone are well-formed.
pub fn simples_fit()
    ensures { SimplesFit }
{}

/// What declarators declare is well-formed, and fits what stands behind them.
pub fn declarators_fit()
    ensures { DeclaratorsFit }
{}

/// Every statement is well-formed where it stands: blocks, branches, loops and switches too.
pub fn statements_fit()
    ensures { StatementsFit }
{}
