//! What a pair weighs. Nothing here takes memory, and adding stops past the greatest weight, so it takes a time that is
//! linear in the program and in that weight.

mod exprs;
mod parts;
mod stmts;

ghost use Rattle.std.specs.Prelude.{◌≡◌, ◌<◌, ◌≤◌, ◌^◌, length, min, slice_get};
ghost use Rattle.joint_ir.specs.Weights.{weight_of, capped as capped_of, main_weight as main_of};
ghost use Rattle.joint_ir.specs.Runs.{body_of};

use crate::bounds::{ACTIVATIONS, Bounds};
use crate::lookup;
use crate::module::Role;
use crate::pair::Pair;
use stmts::Scale;

/// The greatest weight of a pair that is unwound, in gates.
pub const HEAVIEST: u64 = 16_777_216;

/// The weight of a pair under bounds, in gates, or 1 more than `HEAVIEST` where it is greater than that.
pub fn weight(pair: &Pair, bounds: &Bounds) -> u64
    requires { length pair.now.program.props < 2 ^ 32 }
    ensures { result ≡ capped_of (weight_of pair.now bounds.now) }
{
    let module = &pair.module;
    let registers = parts::bits_of_role(module, Role::Register);
    let inputs = parts::bits_of_role(module, Role::Input);
    let settle = exprs::capped(module.settle_weight);
    let mirror = parts::bits_of_mirror(pair);
    let globals = parts::globals(pair.program.globals.as_slice());
    let main = main_weight(pair, bounds);
    exprs::capped(64 + registers + inputs + settle + mirror + globals + main)
}

/// The body of `main`, whose first activation stands.
fn main_weight(pair: &Pair, bounds: &Bounds) -> u64
    requires { length pair.now.program.props < 2 ^ 32 }
    ensures value { result ≡ capped_of (main_of pair.now bounds.now (body_of (slice_get pair.now.program.functions pair.now.program.main))) }
    ensures bound { result ≤ 16777217 }
{
    let main = pair.program.main;
    match pair.program.functions.get(main as usize) {
        None => 0,
        Some(function) => match &function.body {
            None => 0,
            Some(body) => {
                let at = Scale {
                    pair,
                    bounds,
                    here: main,
                    left: ACTIVATIONS as u32 - 1,
                    plain: lookup::are_plain(bounds, &pair.program),
                };
                stmts::stmt(&at, &[main], body)
            }
        },
    }
}
