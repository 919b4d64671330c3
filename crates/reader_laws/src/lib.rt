//! A law of both readers: a text has one answer.
#![tactic(auto)]

ghost use Rattle.reader_laws.specs.Answers.{OneCAnswer, OneVerilogAnswer};

/// A text that has a tree is not refused, and one that is refused is refused for its syntax or as too deep, not both. It does
/// nothing: its contract is a law.
pub fn one_answer()
    ensures verilog { OneVerilogAnswer }
    ensures c { OneCAnswer }
{}
