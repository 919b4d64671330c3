//! Where expressions begin (C99 6.5).

ghost use Rattle.std.specs.Prelude.{◌≡◌};
ghost use Rattle.c_tree.specs.Starts.{call_start as call_place, expression_start as expression_place, object_start as object_place, path_start as path_place};

use c_tree::{Call, Expression, Object, Path};
use src_text::Place;

/// The place of an object's first name.
pub fn object_start(object: &Object) -> Place
    ensures { result ≡ object_place object.now }
{
    object.name.place
}

/// The place of the first name of a path.
#[tactic(auto, using(crate::proofs::Equations::element_start))]
pub fn path_start(path: &Path) -> Place
    ensures { result ≡ path_place path.now }
{
    match path {
        Path::Object(object) => object_start(object),
        Path::Element(object, _, _) => object_start(object),
    }
}

/// The place of an expression's first token. That of a binary operator or a `?:` is where its left operand begins.
#[tactic(auto, using(crate::proofs::Equations::parentheses_start, crate::proofs::Equations::unary_start, crate::proofs::Equations::cast_start, crate::proofs::Equations::binary_start, crate::proofs::Equations::conditional_start))]
pub fn expression_start(expression: &Expression) -> Place
    ensures { result ≡ expression_place expression.now }
{
    match expression {
        Expression::Integer(place, _) => *place,
        Expression::Character(place, _) => *place,
        Expression::True(place) => *place,
        Expression::False(place) => *place,
        Expression::Read(path) => path_start(path),
        Expression::Parentheses(place, _) => *place,
        Expression::Unary(mark, _) => mark.place,
        Expression::Cast(place, _, _) => *place,
        Expression::Binary(left, _, _) => expression_start(left.get()),
        Expression::Conditional(condition, _, _, _) => expression_start(condition.get()),
    }
}

/// The place of the name of the function that is called.
pub fn call_start(call: &Call) -> Place
    ensures { result ≡ call_place call.now }
{
    call.name.place
}
