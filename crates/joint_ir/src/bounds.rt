//! The bounds of a run.

use crate::program::PropId;
use sqlite_items::Items;

/// The activations that may stand at one time, the first one of `main` among them.
pub const ACTIVATIONS: usize = 32;

/// A limit of its own for one loop or one function, named by its `unwind` or `recursion` property.
#[derive(Clone, Copy, Debug, PartialEq, Eq)]
pub struct Limit {
    pub prop: PropId,
    /// In turns, or in activations.
    pub count: u32,
}

/// Limits of single loops and functions.
pub type LimitList = Items<Limit>;

/// How far a run goes.
#[derive(Drop)]
pub struct Bounds {
    /// The turns of each entry of a loop, and the activations of each function at one time.
    pub unwind: u32,
    /// Limits that take the place of `unwind`. Of two for one property the first holds.
    pub limits: LimitList,
    /// The clock edges of a run.
    pub frames: u32,
    /// Whether one edge more breaks a property, in place of ending the run.
    pub check_bound: bool,
}
