//! First tokens of expressions.

ghost use Rattle.std.specs.Prelude.{◌≡◌};
ghost use Rattle.c_tree.specs.Starts.{path_start, expression_start};

use c_tree::{Expression, Path};
use src_text::Place;

/// The place of a path's first token.
pub fn path_place(path: &Path) -> Place
    ensures { result ≡ path_start path.now }
{
    match path {
        Path::Object(o) => o.name.place,
        Path::Element(o, _, _) => o.name.place,
    }
}

/// The place of an expression's first token.
#[cycle(placing)]
pub fn expression_place(e: &Expression) -> Place
    ensures { result ≡ expression_start e.now }
{
    match e {
        Expression::Integer(place, _) => *place,
        Expression::Character(place, _) => *place,
        Expression::True(place) => *place,
        Expression::False(place) => *place,
        Expression::Read(path) => path_place(path),
        Expression::Parentheses(place, _) => *place,
        Expression::Unary(mark, _) => mark.place,
        Expression::Cast(place, _, _) => *place,
        Expression::Binary(a, _, _) => expression_place(a.get()),
        Expression::Conditional(c, _, _, _) => expression_place(c.get()),
    }
}
