//! What the actions of a Verilog text tell of its tree before the tree is built: how deep it is, and where its first node
//! stands that is too deep; and how many nodes it has at most.
//!
//! `node_depth` finds the depth from the actions alone, over the numbers of tokens. The tree has places. The first law
//! says that the one is the other (`specs/Depth.antt`).
#![tactic(auto)]

ghost use Rattle.v_depth.specs.Laws.{DepthLaw, SizeLaw};

/// What the actions of a derivation tell of the depth of the tree that they build. It does nothing: its contract is a
/// law.
pub fn depth_law()
    ensures { DepthLaw }
{}

/// The tree of a text has at most as many nodes as the text has tokens, and one. It does nothing: its contract is a law.
pub fn size_law()
    ensures { SizeLaw }
{}
