//! A law of both grammars: the table has the texts of its productions, as they stand without actions.
#![tactic(auto)]

ghost use Rattle.c_grammar.specs.Productions as c;
ghost use Rattle.c_grammar.specs.Table.{TABLE};
ghost use Rattle.grammar_texts.specs.Listed.{SameTexts};
ghost use Rattle.v_grammar.specs.Productions as verilog;
ghost use Rattle.v_grammar.specs.Verilog.{VERILOG};

/// The texts that the tables derive are those that the lists of productions derive: an action stands for no token. It does
/// nothing: its contract is a law.
pub fn same_texts()
    ensures c { SameTexts TABLE c.PRODUCTIONS }
    ensures verilog { SameTexts VERILOG verilog.PRODUCTIONS }
{}
