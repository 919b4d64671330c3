//! Laws of the readers' definitions: small texts of both languages have the trees that one expects.
//!
//! What a text's tree is, a grammar's table and its actions define (`IsVerilogSource` in `v_actions`, `IsCSource` in
//! `c_actions`). These laws say what that comes to where the standards are plain: how operators bind and group, which `if` an
//! `else` belongs to, and what each kind of literal, statement and declaration gives. A slip in a table or in an action
//! breaks one of them.
#![tactic(auto)]

ghost use Rattle.tree_laws.specs.CDeclarations as c_declarations;
ghost use Rattle.tree_laws.specs.CExpressions as c_expressions;
ghost use Rattle.tree_laws.specs.CStatements as c_statements;
ghost use Rattle.tree_laws.specs.VerilogDeclarations as verilog_declarations;
ghost use Rattle.tree_laws.specs.VerilogExpressions as verilog_expressions;
ghost use Rattle.tree_laws.specs.VerilogStatements as verilog_statements;

/// Small Verilog texts have the trees that were worked out by hand. It does nothing: its contract is a law.
pub fn verilog_trees()
    ensures expressions { verilog_expressions.ExpressionTrees }
    ensures statements { verilog_statements.StatementTrees }
    ensures declarations { verilog_declarations.DeclarationTrees }
{}

/// Small C texts have the trees that were worked out by hand. It does nothing: its contract is a law.
pub fn c_trees()
    ensures expressions { c_expressions.ExpressionTrees }
    ensures statements { c_statements.StatementTrees }
    ensures declarations { c_declarations.DeclarationTrees }
{}
