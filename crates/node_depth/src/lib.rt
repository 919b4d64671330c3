//! The first node of a tree that stands too deep, found from the tree's steps, without recursion and before the tree is
//! built.
//!
//! A language says of each action how many values it takes, how many nested nodes it puts over their trees, and whether
//! it makes a value of the token right before it. One pass from the left over the steps lists the nodes, each after
//! those inside it, and one from the right over the nodes finds the first of those that stand one deeper than the limit.
#![tactic(auto)]

mod depth;
mod weave;

pub use depth::{Node, first_deeper};
pub use weave::{Weave, too_deep};
