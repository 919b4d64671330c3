//! Laws of joint runs that hold by their definitions alone.
#![tactic(auto)]

ghost use Rattle.joint_laws.specs.Choices.{EnoughChoices};
ghost use Rattle.joint_laws.specs.Counting.{Examples};
ghost use Rattle.joint_laws.specs.Fitting.{WorkedPairs};
ghost use Rattle.joint_laws.specs.Rows.{WorkedRuns};

/// For each pair and all bounds, some number of choices is enough: no run on that many or more draws more than there are.
/// It does nothing: its contract is a law.
pub fn enough_choices()
    ensures { EnoughChoices }
{}

/// A small pair is well-formed, and two of its runs are those that are expected of it. It does nothing: its contract is a
/// law.
pub fn examples()
    ensures { Examples }
{}

/// Small runs are as they were worked out by hand: how each ends, what is seen of it, and the choices that it leaves; and
/// their pairs are well-formed. It does nothing: its contract is a law.
pub fn worked()
    ensures runs { WorkedRuns }
    ensures pairs { WorkedPairs }
{}
