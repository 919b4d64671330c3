//! A law of joint runs: the events of a run that breaks a property end by that break, and have no other. Nothing here is
//! run.
#![tactic(auto)]

ghost use Rattle.named_breaks.specs.Named.{NamedBreaks};

/// Where a run breaks a property, its last event is that break, and no property breaks before it. The contract is the law.
pub fn named_breaks()
    ensures { NamedBreaks }
{}
