//! Nodes of a tree over the numbers of its tokens, and the same nodes over their places: what steps weave over the one is
//! what they weave over the other. It has proofs alone, for the crates that say how deep a tree is.
#![tactic(auto)]
