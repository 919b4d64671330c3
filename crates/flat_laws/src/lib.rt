//! Laws on what flat expressions mean: their values are the same in worlds that are alike on what they name, and a
//! constant has one value. It has proofs alone.
#![tactic(auto)]
