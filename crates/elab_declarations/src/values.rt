//! The constants that expressions are by themselves.

ghost use Rattle.std.specs.Prelude.{◌≡◌, IfOk};
ghost use Rattle.elab_declarations.specs.Values.{constant_from as constant_from_of, standing_constant as standing_constant_of, given_constant as given_constant_of};

use elab_names::constant::{Constant, Standing, Worth};
use elab_names::measure::constant_of;
use elab_names::scope::Names;
use std::alloc::{AllocError, Global};
use v_tree::Expr;

fn constant_from(signed: Option<bool>, worth: Worth) -> Option<Constant>
    ensures { result ≡ constant_from_of signed worth }
{
    match signed {
        None => None,
        Some(signed) => match worth {
            Worth::Value(word) => Some(Constant { word, signed }),
            Worth::Open => None,
            Worth::NotConstant => None,
        },
    }
}

fn standing_constant(s: Standing) -> Option<Constant>
    ensures { result ≡ standing_constant_of s }
{
    constant_from(s.signed, s.worth)
}

/// The constant that an expression is by itself: its value, its length and its sign; None where an offence leaves it open.
pub fn given_constant(
    alloc: Global,
    names: &Names,
    e: &Expr,
) -> Result<Option<Constant>, AllocError>
    ensures { IfOk result (λ c. c ≡ given_constant_of names.now e.now) }
{
    let s = constant_of(alloc, names, &[], e)?;
    Ok(standing_constant(s))
}
