//! The flat module: what a Verilog source is once its instances are opened, its parameters are numbers and its loops are
//! unrolled.
//!
//! The types are generic in their expressions, so that a flat module and one whose expressions are terms share them.
//! `specs/` says what a flat expression is by itself (length, sign, sites) and what its value is at a width and a sign
//! that are handed down (IEEE 1364-2005, 5.4 and 5.5), and holds the table of operators, which constant expressions
//! use too. Nothing here knows how a flat module is made, or what is made of it.
#![tactic(auto)]

mod design;
mod expr;

pub use design::{
    Clocked, Design, Driver, FlatClocked, FlatDriver, FlatSignal, FlatStmt, FlatTarget, FlatTree,
    FlatWork, Sense, Work,
};
pub use expr::{FlatExpr, FlatSelection, Number, PlacedSite, Read, Seen};
