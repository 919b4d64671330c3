//! Flat expressions as a language of statements: which bits each reads, and that its value depends on those alone. It has
//! definitions and proofs, and no code.
#![tactic(auto)]
