//! Functions of a C file (C99 6.7.5.3 and 6.9.1): which there are, their declarations and their definitions.
//!
//! Knows nothing of file-scope objects, structs and the mirror, nor of what stands in which order in a file.
#![tactic(auto)]

pub mod declarations;
pub mod definitions;
pub mod heads;
pub mod table;
