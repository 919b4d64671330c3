//! Where each part of a Verilog tree begins: the place of its first token.
#![tactic(auto)]

ghost use Rattle.std.specs.Prelude.{◌≡◌};
ghost use Rattle.v_tree.specs.Starts.{case_item_start as case_item_place, expr_start as expr_place, item_start as item_place, literal_start as literal_place, stmt_start as stmt_place, target_start as target_place, values_start as values_place};

use src_text::Place;
use v_tree::{CaseItem, Expr, Item, Literal, Stmt, Target};

/// The place of a number, or of the size before it.
pub fn literal_start(literal: &Literal) -> Place
    ensures { result ≡ literal_place literal.now }
{
    match literal {
        Literal::Decimal(number) => number.place,
        Literal::Based(number) => number.place,
        Literal::Sized(size, _) => size.place,
    }
}

/// The place of an expression's first token. That of a binary operator or a `?:` is where its left operand begins.
pub fn expr_start(expr: &Expr) -> Place
    ensures { result ≡ expr_place expr.now }
{
    match expr {
        Expr::Literal(literal) => literal_start(literal),
        Expr::Name(name) => name.place,
        Expr::Select(name, _) => name.place,
        Expr::Unary(operator, _) => operator.place,
        Expr::Binary(left, _, _) => expr_start(left.get()),
        Expr::Conditional(condition, _, _) => expr_start(condition.get()),
        Expr::Parentheses(place, _) => *place,
        Expr::Concatenation(place, _) => *place,
        Expr::Replication(place, _, _) => *place,
        Expr::Signed(place, _) => *place,
        Expr::Unsigned(place, _) => *place,
    }
}

/// The place of the first token of what an assignment writes.
pub fn target_start(target: &Target) -> Place
    ensures { result ≡ target_place target.now }
{
    match target {
        Target::Name(name) => name.place,
        Target::Select(name, _) => name.place,
        Target::Concatenation(place, _) => *place,
    }
}

/// The place of a statement's first token.
pub fn stmt_start(stmt: &Stmt) -> Place
    ensures { result ≡ stmt_place stmt.now }
{
    match stmt {
        Stmt::Empty(place) => *place,
        Stmt::Block(place, _, _) => *place,
        Stmt::If(place, _, _) => *place,
        Stmt::IfElse(place, _, _, _) => *place,
        Stmt::Case(place, _, _, _) => *place,
        Stmt::For(place, _, _) => *place,
        Stmt::Assignment(assignment) => target_start(&assignment.target),
    }
}

/// The place of the first value's first token, or that of what follows where there is none.
fn values_start(values: &[Expr], after: Place) -> Place
    ensures { result ≡ values_place values.now after }
{
    match values {
        [] => after,
        [first, ..] => expr_start(first),
    }
}

/// The place of the first token of an item of a case statement.
pub fn case_item_start(item: &CaseItem) -> Place
    ensures { result ≡ case_item_place item.now }
{
    match item {
        CaseItem::Values(values, body) => values_start(values.as_slice(), stmt_start(body.get())),
        CaseItem::Default(place, _) => *place,
    }
}

/// The place of the first token of an item of a module.
pub fn item_start(item: &Item) -> Place
    ensures { result ≡ item_place item.now }
{
    match item {
        Item::Port(declaration) => declaration.direction.place,
        Item::Net(declaration) => declaration.place,
        Item::Reg(declaration) => declaration.place,
        Item::Integer(declaration) => declaration.place,
        Item::Parameter(declaration) => declaration.place,
        Item::LocalParameter(declaration) => declaration.place,
        Item::Assign(assignments) => assignments.place,
        Item::Always(construct) => construct.place,
        Item::Initial(place, _) => *place,
        Item::Instances(instances) => instances.module.place,
    }
}
