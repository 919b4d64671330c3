//! What a run of the statements of a C text is, over its tree (C99 6.8).
//!
//! Nothing here does anything: `specs/` holds the definitions, and `proofs/Rows.antt` worked runs.
#![tactic(auto)]
