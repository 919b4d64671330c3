//! What statements are carried out in.

use joint_ir::{Bounds, Pair};

/// What statements are carried out in: the pair and the bounds, the function whose body it is, and the number of
/// activations that may stand besides.
#[derive(Clone, Copy)]
pub struct Activation<'a> {
    pub pair: &'a Pair,
    pub bounds: &'a Bounds,
    pub here: u32,
    pub left: u32,
}
