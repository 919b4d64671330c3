//! Laws of constant expressions: they have the table of operators of flat expressions, and small constants are what one
//! expects.
#![tactic(auto)]

ghost use Rattle.elab_laws.specs.Operators.{ArithmeticAgrees, ComparisonAgrees, UnaryAgrees, ReductionsAgree};
ghost use Rattle.elab_laws.specs.Worked.{WorkedConstants};

/// What an operator gives of constants is what it gives of flat expressions. It does nothing: its contract is a law.
pub fn operators_agree()
    ensures arithmetic { ArithmeticAgrees }
    ensures comparison { ComparisonAgrees }
    ensures unary { UnaryAgrees }
    ensures reductions { ReductionsAgree }
{}

/// Small constants are as they were worked out by hand. It does nothing: its contract is a law.
pub fn worked()
    ensures { WorkedConstants }
{}
