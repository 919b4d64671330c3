//! What the typed program of a C text has of the text.
//!
//! Nothing here does anything: each function is the statement of a law.
#![tactic(auto)]

ghost use Rattle.c_text_programs.specs.Laws.{ProgramsOfTextsFit};

/// The typed program of a text is well-formed, where nothing in the text is an offence.
pub fn programs_of_texts_fit()
    ensures { ProgramsOfTextsFit }
{}
