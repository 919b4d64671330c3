//! Parts of small programs, beside a module of nothing.

ghost use Rattle.std.specs.Prelude.{◌≡◌, [], ◌∷◌, IfOk, Some, pos};
ghost use Rattle.joint_ir.specs.WellFormed.{IsWellFormed};
ghost use Rattle.show_hostile.specs.Nests.{IsNest, IsNumber, call_of, expr_of, f_of, main_of, no_module_of, number_of, pair_of, program_of, properties_of, property_of, stmt_of, var_of, here};

use anyhow::Result;
use joint_ir::{
    Binding, CProgram, FlatModule, Function, INT, IntType, Pair, Prop, PropKind, SNode, TCall,
    TExpr, TNode, TStmt, Var,
};
use sqlite_items::Items;
use src_text::{Name, Place};
use std::alloc::Global;
use word_eqs::Terms;

/// The place of everything in these programs.
pub const HERE: Place = Place { line: 1, column: 1 };

/// A list of one item.
pub fn one<T: Drop>(alloc: Global, item: T) -> Result<Items<T>>
    ensures { IfOk result (λ items. items ≡ item ∷ []) }
{
    let mut items = Items::new(alloc);
    items.push(item)?;
    Ok(items)
}

/// A list of two items.
pub fn two<T: Drop>(alloc: Global, first: T, second: T) -> Result<Items<T>>
    ensures { IfOk result (λ items. items ≡ first ∷ second ∷ []) }
{
    let mut items = one(alloc, first)?;
    items.push(second)?;
    Ok(items)
}

/// A statement.
pub fn stmt(node: SNode) -> TStmt
    ensures { result ≡ stmt_of node }
{
    TStmt { place: HERE, node }
}

/// An expression of type `int`.
pub fn expr(node: TNode) -> TExpr
    ensures { result ≡ expr_of node }
{
    TExpr {
        ty: INT,
        place: HERE,
        node,
    }
}

/// `1`
pub fn number() -> TExpr
    ensures value { result ≡ number_of 1 }
    ensures fits { IsNumber result }
{
    expr(TNode::Const(1))
}

/// A module of nothing.
pub fn no_module(alloc: Global) -> Result<FlatModule>
    ensures { IfOk result (λ m. m ≡ no_module_of) }
{
    Ok(FlatModule {
        top: Name::new(alloc, "")?,
        instances: Items::new(alloc),
        signals: Items::new(alloc),
        firsts: Items::new(alloc),
        settle_terms: Terms::new(alloc),
        settled: Items::new(alloc),
        edge_terms: Terms::new(alloc),
        next: Items::new(alloc),
        settle_weight: 0,
        edge_weight: 0,
        settle_sites: Items::new(alloc),
        edge_sites: Items::new(alloc),
    })
}

/// A property of a function.
pub fn property(alloc: Global, function: &str, kind: PropKind) -> Result<Prop>
    ensures { IfOk result (λ p. p ≡ property_of function.now kind) }
{
    Ok(Prop {
        function: Name::new(alloc, function)?,
        kind,
        number: 1,
        line: 1,
    })
}

/// `int f(int x)` with a body.
pub fn f_function(alloc: Global, body: TStmt) -> Result<Function>
    ensures { IfOk result (λ fn. fn ≡ f_of body) }
{
    Ok(Function {
        name: Name::new(alloc, "f")?,
        result: Some(INT),
        first: 0,
        params: 1,
        body: Some(body),
    })
}

/// `int main(void)` with a body.
pub fn main_function(alloc: Global, body: TStmt) -> Result<Function>
    ensures { IfOk result (λ fn. fn ≡ main_of body) }
{
    Ok(Function {
        name: Name::new(alloc, "main")?,
        result: Some(INT),
        first: 0,
        params: 0,
        body: Some(body),
    })
}

/// `f(e)`
pub fn call_f(alloc: Global, argument: TExpr) -> Result<TCall>
    ensures { IfOk result (λ call. call ≡ call_of argument) }
{
    Ok(TCall {
        place: HERE,
        function: 1,
        args: one(alloc, argument)?,
    })
}

/// An object of type `int`, or an array of so many.
pub fn int_var(alloc: Global, name: &str, length: u32) -> Result<Var>
    ensures { IfOk result (λ x. x ≡ var_of name.now length) }
{
    Ok(Var {
        name: Name::new(alloc, name)?,
        ty: INT,
        length,
        firsts: Items::new(alloc),
        constant: false,
    })
}

/// One for the recursion of `main`, one for that of `f`, and one for all loops of `f`.
pub fn properties(alloc: Global) -> Result<Items<Prop>>
    ensures { IfOk result (λ ps. ps ≡ properties_of) }
{
    let main = property(alloc, "main", PropKind::Recursion)?;
    let f = property(alloc, "f", PropKind::Recursion)?;
    let mut properties = two(alloc, main, f)?;
    properties.push(property(alloc, "f", PropKind::Unwind)?)?;
    Ok(properties)
}

/// `int main(void) { f(1); }` and `int f(int x)` with a body.
fn program(alloc: Global, body: TStmt) -> Result<CProgram>
    ensures { IfOk result (λ p. p ≡ program_of body) }
{
    let start = stmt(SNode::Call(call_f(alloc, number())?));
    let main = main_function(alloc, start)?;
    Ok(CProgram {
        functions: two(alloc, main, f_function(alloc, body)?)?,
        globals: Items::new(alloc),
        locals: one(alloc, int_var(alloc, "x", 0)?)?,
        mirror: None,
        props: properties(alloc)?,
        main: 0,
    })
}

/// A program beside a module of nothing.
pub fn beside_nothing(alloc: Global, program: CProgram) -> Result<Pair>
    ensures { IfOk result (λ p. p ≡ pair_of program) }
{
    Ok(Pair {
        program,
        module: no_module(alloc)?,
        binding: Binding {
            links: Items::new(alloc),
        },
    })
}

/// The program whose `f` has a nest as its body.
pub fn nest(alloc: Global, body: TStmt) -> Result<Pair>
    requires { IsNest body }
    ensures { IfOk result IsWellFormed }
{
    let program = program(alloc, body)?;
    Ok(beside_nothing(alloc, program)?)
}
