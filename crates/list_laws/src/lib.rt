//! Laws of guarded lists: what an assignment of a list reads, and that every list of choices is read by one. Nothing here
//! is run.
#![tactic(auto)]

ghost use Rattle.list_laws.specs.Matched.{EachListMatched, ReadsFit};

/// For a list in order and at least as many choices as it has steps, some assignment reads the first of the choices, each
/// modulo 2 to the width that it is read at. The contract is the law.
pub fn each_list_matched()
    ensures { EachListMatched }
{}

/// What an assignment reads are numbers of the widths that it reads them at, so each is itself modulo 2 to its width. The
/// contract is the law.
pub fn reads_fit()
    ensures { ReadsFit }
{}
