//! Laws of the grammars' tables: small texts of both languages have no tree, and the token is named where that shows.
//!
//! The tables are data, and their tests say that a text has at most one tree, not that the grammar is the one that is
//! meant. These laws say where it refuses what C or Verilog has and the profiles leave out, and what neither of them has.
#![tactic(auto)]

ghost use Rattle.grammar_laws.specs.CRefusals.{CRefusals};
ghost use Rattle.grammar_laws.specs.VerilogRefusals.{VerilogRefusals};

/// Small C texts have no tree. It does nothing: its contract is a law.
pub fn c_refusals()
    ensures { CRefusals }
{}

/// Small Verilog texts have no tree. It does nothing: its contract is a law.
pub fn verilog_refusals()
    ensures { VerilogRefusals }
{}
