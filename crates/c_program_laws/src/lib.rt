//! What the typed program of a C file has of its source.
//!
//! Nothing here does anything: each function is the statement of a law.
#![tactic(auto)]

ghost use Rattle.c_program_laws.specs.Laws.{BodiesFit, ObjectsFit, ProgramsFit};

/// The objects of file scope that a declaration declares are well-formed.
pub fn objects_fit()
    ensures { ObjectsFit }
{}

/// The body of a function is well-formed where its parameters are declared.
pub fn bodies_fit()
    ensures { BodiesFit }
{}

/// The typed program of a whole file is well-formed.
pub fn programs_fit()
    ensures { ProgramsFit }
{}
