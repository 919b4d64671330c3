//! One term more, and what it gives: its width, its value by those of its parts, its gates and the terms that it took.
//!
//! Every builder of terms above says what it adds by the same record, `Adds`, so that records of one step after the other
//! make one. Nothing here knows of expressions.
#![tactic(auto)]

mod steps;

pub use steps::{choose, constant, highest, join, one, resize, slice, turned, two, variable};
